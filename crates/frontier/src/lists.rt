// Tables of a number for each node or place, some of which have none.
ghost use Rattle.std.specs.Prelude.{◌≡◌};
ghost use Rattle.definitions.specs.Networks.{place};

// What stands at k; nothing beyond the last.
pub fn at<T: Copy>(list: &[Option<T>], k: usize) -> Option<T>
    ensures { result ≡ place list.now k }
{
    list.get(k).copied().flatten()
}
