// The numbers that stand in an image, by name: its tags, the other bytes that stand for a word, and its limits; marks stand in
// tables too, and one limit is of fuel. specs/Tags, `limits` in specs/Image and `most_fuel` in specs/Calls have the same for
// definitions.
#[derive(Drop)]
pub struct Tag {}

impl Tag {
    // A rule, and its parts.
    pub const RULE: u8 = 0x10;

    pub const VARIABLES: u8 = 0x11;

    pub const LEFT: u8 = 0x12;

    pub const RIGHT: u8 = 0x13;

    pub const INTERFACE: u8 = 0x14;

    pub const TESTS: u8 = 0x15;

    pub const MODE: u8 = 0x16;

    // A procedure.
    pub const PROCEDURE: u8 = 0x17;

    // The items of a graph.
    pub const NODE: u8 = 0x20;

    pub const EDGE: u8 = 0x21;

    // The elements of a label; the first two are operands too.
    pub const CONSTANT: u8 = 0x30;

    pub const VARIABLE: u8 = 0x31;

    pub const SUM: u8 = 0x32;

    pub const DIFFERENCE: u8 = 0x33;

    // Tests.
    pub const EDGE_TEST: u8 = 0x40;

    pub const IN_DEGREE: u8 = 0x41;

    pub const OUT_DEGREE: u8 = 0x42;

    pub const RELATION: u8 = 0x43;

    // Commands.
    pub const RULE_SET: u8 = 0x50;

    pub const SEQUENCE: u8 = 0x51;

    pub const LOOP: u8 = 0x54;

    pub const SKIP: u8 = 0x55;

    pub const FAIL: u8 = 0x56;

    pub const BREAK: u8 = 0x57;

    pub const CALL: u8 = 0x58;

    pub const GUARDED: u8 = 0x59;
}

// The types of variables.
#[derive(Drop)]
pub struct VariableType {}

impl VariableType {
    pub const INT: u8 = 1;

    pub const LIST: u8 = 2;
}

// The relations of a relation test.
#[derive(Drop)]
pub struct Relation {}

impl Relation {
    pub const EQUAL: u8 = 1;

    pub const LESS: u8 = 2;
}

// The mode of a rule that preserves roots; any other reflects them.
#[derive(Drop)]
pub struct Mode {}

impl Mode {
    pub const PRESERVING: usize = 1;
}

// Marks: no edge is grey and no node dashed, and any, which no host item has, agrees with every mark.
#[derive(Drop)]
pub struct Mark {}

impl Mark {
    pub const NONE: u8 = 0;

    pub const RED: u8 = 1;

    pub const GREEN: u8 = 2;

    pub const BLUE: u8 = 3;

    pub const GREY: u8 = 4;

    pub const DASHED: u8 = 5;

    pub const ANY: u8 = 6;
}

// The limits of an image, and of the fuel of a run.
#[derive(Drop)]
pub struct Limit {}

impl Limit {
    pub const BYTES: usize = 8192;

    pub const RULES: usize = 32;

    pub const PROCEDURES: usize = 16;

    pub const VARIABLES: usize = 6;

    pub const NODES: usize = 6;

    pub const EDGES: usize = 6;

    pub const ELEMENTS: usize = 8;

    pub const TESTS: usize = 4;

    pub const NUMBERS: usize = 8;

    pub const COMMANDS: usize = 16;

    pub const DEPTH: usize = 16;

    pub const FUEL: u32 = 1000000;
}
