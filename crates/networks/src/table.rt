// The content that a draft and a book share.
ghost use Rattle.std.specs.Prelude.{◌≤◌, vec_len};
ghost use Rattle.definitions.specs.Networks.{AllSound, listed};

use definitions::Link;

// A node count and links, always within the limits of a network.
#[derive(Drop)]
pub struct Table {
    pub nodes: usize,
    pub links: Vec<Link>,
    ghost few: { nodes ≤ 256 },
    ghost short: { vec_len links ≤ 1024 },
    ghost sound: { AllSound (listed nodes links.items) },
}
