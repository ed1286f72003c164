// The types that code and definitions share, and the numbers that belong to a kind of table. What they mean is in specs/.
#![tactic(auto)]

ghost use Rattle.std.specs.Prelude.{◌≡◌};
ghost use Rattle.meaning.specs.Layout.{base, four, small, layout_of};

mod numbers;
pub mod tags;

// A sum's, a difference's or a relation test's operand. An atom is held as its 32-bit word.
#[derive(Clone, Copy)]
pub enum Operand {
    Constant(u32),
    Variable(usize),
}

// An element of a label in a rule.
#[derive(Clone, Copy)]
pub enum Element {
    Constant(u32),
    Variable(usize),
    Sum(Operand, Operand),
    Difference(Operand, Operand),
}

// What a test asks of a match, before negation.
#[derive(Clone, Copy)]
pub enum Condition {
    Edge(usize, usize),
    InDegree(usize, usize),
    OutDegree(usize, usize),
    Equal(Operand, Operand),
    Less(Operand, Operand),
}

#[derive(Clone, Copy)]
pub struct Test {
    pub negated: bool,
    pub condition: Condition,
}

// Why a run that has started ends at once: nothing catches these. Each has the number of its answer.
#[derive(Clone, Copy)]
pub enum Stop {
    OutOfFuel = 2,
    NoNodeRoom = 3,
    NoEdgeRoom = 4,
    NoRecordRoom = 5,
    LabelTooLarge = 6,
}

// What is wrong with the input of a call, with the number of its answer.
#[derive(Clone, Copy)]
pub enum Refusal {
    ReportLength = 9,
    NodeTableLength = 10,
    EdgeTableLength = 11,
    JournalLength = 12,
    TooMuchFuel = 13,
    ImageTooLong = 14,
    BadHost = 15,
    BadForm = 16,
    BadReferences = 17,
    BadPlacement = 18,
    BadDepth = 19,
    BadRecords = 20,
    BadText = 22,
    BadNames = 23,
    TextDoesNotFit = 24,
    BufferTooShort = 25,
    LabelDoesNotFit = 26,
    HostDoesNotFit = 29,
}

// The answer of a call.
#[derive(Clone, Copy)]
pub enum Answer {
    Result,
    Fail,
    Stopped(Stop),
    Refused(Refusal),
}

// How a command ends.
#[derive(Clone, Copy)]
pub enum End {
    Done,
    Failed,
    Broke,
    Stopped(Stop),
}

// The fuel left, the steps taken and the journal records used.
#[derive(Clone, Copy)]
pub struct Tally {
    pub fuel: usize,
    pub steps: usize,
    pub records: usize,
}

// How a command ended, and the tally then.
#[derive(Clone, Copy)]
pub struct Ran {
    pub end: End,
    pub tally: Tally,
}

impl Tally {
    pub fn new(fuel: usize) -> Self
        ensures { result ≡ record { fuel = fuel; steps = 0; records = 0 } }
    {
        Tally {
            fuel: fuel,
            steps: 0,
            records: 0,
        }
    }
}

// The arrays that a search fills: the slots of left items, and of each variable the length of its value and its atoms.
#[derive(Drop)]
pub struct Room {}

impl Room {
    pub const ITEMS: usize = 12;

    pub const VARIABLES: usize = 6;

    pub const ATOMS: usize = 48;
}

// A table of a host.
#[derive(Clone, Copy)]
pub enum Table {
    Nodes,
    Edges,
}

// How a host is carried to other tables: to as many slots, or to any number of slots that its live ones fit in.
#[derive(Clone, Copy)]
pub enum Manner {
    Exact,
    Packing,
}

// The kinds of table: the bytes of a slot and the most slots.
#[derive(Drop)]
pub struct NodeTable {}

impl NodeTable {
    pub const SLOT: usize = 36;

    pub const MOST: usize = 512;
}

#[derive(Drop)]
pub struct EdgeTable {}

impl EdgeTable {
    pub const SLOT: usize = 40;

    pub const MOST: usize = 1024;
}

#[derive(Drop)]
pub struct JournalTable {}

impl JournalTable {
    pub const SLOT: usize = 44;

    pub const MOST: usize = 1024;
}

// The cores that programs run on.
#[derive(Clone, Copy)]
pub enum Core {
    Wide,
    Small,
}

// How tables and journal are laid out: the atoms that a label holds at most, the bytes of a slot number, the bytes of a
// slot of each table (a journal slot holds one change), and the most slots of each.
#[derive(Clone, Copy)]
pub struct Layout {
    pub atoms: usize,
    pub width: usize,
    pub node: usize,
    pub edge: usize,
    pub change: usize,
    pub nodes: usize,
    pub edges: usize,
    pub records: usize,
}

impl Layout {
    // Eight atoms, two bytes to a slot number.
    pub fn base() -> Self
        ensures { result ≡ base }
    {
        Layout {
            atoms: 8,
            width: 2,
            node: NodeTable::SLOT,
            edge: EdgeTable::SLOT,
            change: JournalTable::SLOT,
            nodes: NodeTable::MOST,
            edges: EdgeTable::MOST,
            records: JournalTable::MOST,
        }
    }

    // The layout of old tables: four atoms, two bytes to a slot number.
    pub fn four() -> Self
        ensures { result ≡ four }
    {
        Layout {
            atoms: 4,
            width: 2,
            node: 20,
            edge: 24,
            change: 28,
            nodes: NodeTable::MOST,
            edges: EdgeTable::MOST,
            records: JournalTable::MOST,
        }
    }

    // The layout of the small core: one atom, one byte to a slot number.
    pub fn small() -> Self
        ensures { result ≡ small }
    {
        Layout {
            atoms: 1,
            width: 1,
            node: 8,
            edge: 10,
            change: 12,
            nodes: 128,
            edges: 255,
            records: 255,
        }
    }

    pub fn of(core: Core) -> Self
        ensures { result ≡ layout_of core }
    {
        match core {
            Core::Wide => Layout::base(),
            Core::Small => Layout::small(),
        }
    }
}
