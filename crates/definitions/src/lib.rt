// The types that all crates share: links, failures and fault codes. The specs beside them define networks, measures,
// routes, guarantees, backups and traces, and `theorems` has what is proved of these definitions.
#![tactic(auto)]

pub mod theorems;

ghost use Rattle.std.specs.Prelude.{◌≡◌, Some};
ghost use Rattle.definitions.specs.Networks.{in_group};

// A link: the nodes it joins, its figure, and the risk groups it belongs to (bit b: group b).
#[derive(Clone, Copy, PartialEq, Eq, Debug, Drop)]
pub struct Link {
    pub tail: u16,
    pub head: u16,
    pub figure: u32,
    pub groups: u32,
}

// How many risk groups there are: one for each bit of a link's groups.
pub const GROUP_COUNT: u16 = 32;

impl Link {
    // A link from its tail to its head, with a figure and risk groups.
    pub fn new(tail: u16, head: u16, figure: u32, groups: u32) -> Link
        ensures { result ≡ record { tail = tail; head = head; figure = figure; groups = groups } }
    {
        Link {
            tail,
            head,
            figure,
            groups,
        }
    }

    // Does the link belong to risk group b? No link belongs to a group that there is not.
    pub fn in_group(self, b: u16) -> bool
        ensures { result ≡ in_group b (Some self) }
    {
        b < GROUP_COUNT && (self.groups >> u32::from(b)) & 1 == 1
    }
}

// Where and why a call was refused: the layer (1 draft, 2 map, 3 planner, 4 console), the number of the question
// that was answered with no, and the place that it asked about.
// Stays numbers: the rules name them, the console prints them, and the faults of each layer are enums.
#[derive(Clone, Copy, PartialEq, Eq, Debug, Drop)]
pub struct FaultCode {
    pub layer: u8,
    pub number: u8,
    pub place: usize,
}

// What has failed when a trace is asked for.
#[derive(Clone, Copy, PartialEq, Eq, Debug, Drop)]
pub enum Failure {
    Nothing,
    OneLink(u16),
    OneGroup(u16),
}
