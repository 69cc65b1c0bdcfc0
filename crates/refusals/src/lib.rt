#![tactic(auto)]
// Why a call is refused, and how what it answers is handed to a host.
ghost use Rattle.std.specs.Prelude.{◌≡◌};
ghost use Rattle.refusals.specs.Refusals.{number, Hands};

// In the order of their numbers, which a host knows them by.
#[derive(Clone, Copy, Debug, PartialEq, Eq, Hash)]
pub enum Refusal {
    // Not a cell key.
    NotACell = 1,
    // A child, corner or side above 7.
    AboveSeven = 2,
    // A child of level 21; or the level given isn't the key's own.
    WrongLevel = 3,
    // Not an inner vertex at that level; or, where a tree is given, it is the root alone.
    NotAVertex = 4,
    // A bound or slab exponent above 15.
    AboveFifteen = 5,
    // No room for another node.
    NodesFull = 6,
    // Unsplit, and no room for another leaf.
    LeavesFull = 7,
    // Split, and no room in the queue for eight children.
    QueueFull = 8,
    // Nothing is asked: the build is finished.
    NothingAsked = 9,
    // The state doesn't fit the tables.
    NotFitting = 10,
    // Not a sound tree.
    NotSound = 11,
    // A start place past the end of either table, or fewer places left than vertices.
    ListFull = 12,
    // An infinite or NaN distance.
    NotFinite = 16,
    // A report table too short.
    ReportShort = 17,
}

impl Refusal {
    // What a host gets.
    pub fn number(self) -> u32
        ensures { result ≡ number self }
    {
        self as u32
    }
}

// Hands an answer over: what it is to the out parameter, or its refusal's number back.
pub fn hand<T: Copy>(answer: Result<T, Refusal>, out: &mut T) -> u32
    ensures { Hands answer out.old result out.new }
{
    match answer {
        Ok(value) => {
            *out = value;
            0
        }
        Err(refusal) => refusal.number(),
    }
}
