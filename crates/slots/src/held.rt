// One slot's bytes: the places of what it holds, reading it and writing it. No other file of code knows a place within a slot.
ghost use Rattle.std.specs.Prelude.{◌≡◌, ◌∷◌, ◌++◌, ◌+◌, ◌-◌, ◌*◌, ◌<◌, ◌≤◌, length, get_or, take, drop, replicate};
ghost use Rattle.meaning.specs.Basics.{zeros};
ghost use Rattle.meaning.specs.Numbers.{number};
ghost use Rattle.meaning.specs.Layout.{Sized, live, is_live, state_place, mark_place, root_place, length_place, head_length, source_place, target_place, edge_atoms, atom_length, node_length, edge_length, atom_bytes, write_node, write_edge};
ghost use Rattle.slots.specs.Slots.{state_of, label_end};

use meaning::Layout;

// Where what a slot holds lies in it: the head, and behind it a node's atoms, or an edge's source, target and atoms.
#[derive(Drop)]
pub struct Place {}

impl Place {
    pub const STATE: usize = 0;

    pub const MARK: usize = 1;

    // A node's root flag; zero in an edge.
    pub const ROOT: usize = 2;

    // The label's length.
    pub const LENGTH: usize = 3;

    pub const SOURCE: usize = Size::HEAD;

    pub const NODE_ATOMS: usize = Size::HEAD;
}

// How many bytes a part of a slot has.
#[derive(Drop)]
pub struct Size {}

impl Size {
    pub const HEAD: usize = 4;

    pub const ATOM: usize = 4;
}

// A slot's state.
#[derive(Drop)]
pub struct SlotState {}

impl SlotState {
    pub const FREE: u8 = 0;

    pub const LIVE: u8 = 1;
}

// Reading.

pub fn state(b: &[u8]) -> u8
    requires { state_place < length b.now }
    ensures { result ≡ get_or b.now state_place 0 }
{
    b[Place::STATE]
}

pub fn is_live(b: &[u8]) -> bool
    requires { state_place < length b.now }
    ensures { result ≡ is_live (state_of b.now) }
{
    state(b) != SlotState::FREE
}

pub fn mark(b: &[u8]) -> u8
    requires { mark_place < length b.now }
    ensures { result ≡ get_or b.now mark_place 0 }
{
    b[Place::MARK]
}

pub fn root(b: &[u8]) -> u8
    requires { root_place < length b.now }
    ensures { result ≡ get_or b.now root_place 0 }
{
    b[Place::ROOT]
}

// How many atoms its label has.
pub fn atom_count(b: &[u8]) -> usize
    requires { length_place < length b.now }
    ensures { result ≡ get_or b.now length_place 0 }
{
    usize::from(b[Place::LENGTH])
}

// An edge's source.
pub fn source(l: Layout, b: &[u8]) -> usize
    requires sized { Sized l }
    requires l_in_bounds { edge_atoms l ≤ length b.now }
    ensures { result ≡ number (take l.width (drop (source_place l) b.now)) }
{
    crate::bytes::slot_number(b, Place::SOURCE, l.width)
}

// An edge's target.
pub fn target(l: Layout, b: &[u8]) -> usize
    requires sized { Sized l }
    requires l_in_bounds { edge_atoms l ≤ length b.now }
    ensures { result ≡ number (take l.width (drop (target_place l) b.now)) }
{
    let width = l.width;
    crate::bytes::slot_number(b, Place::SOURCE + width, width)
}

// Where an edge's atoms begin.
pub fn edge_atoms(l: Layout) -> usize
    requires { Sized l }
    ensures { result ≡ edge_atoms l }
{
    Place::SOURCE + 2 * l.width
}

// The bytes of its label, whose atoms begin at a place.
pub fn label(b: &[u8], start: usize) -> &[u8]
    requires { (length_place < length b.now) × (label_end start b.now ≤ length b.now) }
    ensures { result.now ≡ take (atom_length * get_or b.now length_place 0) (drop start b.now) }
{
    let end = start + Size::ATOM * atom_count(b);
    &b[start..end]
}

// Whether it is zero behind its label, whose atoms begin at a place.
pub fn zeros_behind(b: &[u8], start: usize) -> bool
    requires { (length_place < length b.now) × (label_end start b.now ≤ length b.now) }
    ensures { result ≡ zeros (drop (label_end start b.now) b.now) }
{
    crate::bytes::zeros_from(b, start + Size::ATOM * atom_count(b))
}

// Writing.

// Writes atoms in the front of a part.
fn put_atoms(to: &mut [u8], label: &[u32])
    requires { length label.now * atom_length ≤ length to.old }
    ensures { to.new ≡ atom_bytes label.now ++ drop (length label.now * atom_length) to.old }
{
    for (j, atom) in label.iter().enumerate() {
        let start = j * Size::ATOM;
        let end = start + Size::ATOM;
        crate::bytes::put_number(&mut to[start..end], *atom as usize);
    }
}

// Zeros a part, and writes the bytes that a live node's slot and a live edge's begin with.
fn put_head(to: &mut [u8], mark: u8, root: u8, size: u8)
    requires { head_length ≤ length to.old }
    ensures { to.new ≡ 1 ∷ mark ∷ root ∷ size ∷ replicate (length to.old - head_length) 0 }
{
    crate::bytes::clear(to);
    to[Place::STATE] = SlotState::LIVE;
    to[Place::MARK] = mark;
    to[Place::ROOT] = root;
    to[Place::LENGTH] = size;
}

// Writes a live node's bytes in a part.
pub fn put_node(l: Layout, to: &mut [u8], mark: u8, root: u8, label: &[u32])
    requires sized { Sized l }
    requires to_len { (length to.old ≡ node_length l) × (length label.now ≤ l.atoms) }
    ensures { to.new ≡ write_node l (live (record { mark = mark; root = root; label = label.now })) }
{
    put_head(to, mark, root, label.len() as u8);
    put_atoms(&mut to[Place::NODE_ATOMS..], label);
}

// Writes a live edge's bytes in a part.
pub fn put_edge(l: Layout, to: &mut [u8], mark: u8, source: usize, target: usize, label: &[u32])
    requires sized { Sized l }
    requires to_len { (length to.old ≡ edge_length l) × (length label.now ≤ l.atoms) }
    ensures { to.new ≡ write_edge l (live (record { mark = mark; source = source; target = target; label = label.now })) }
{
    let width = l.width;
    let middle = Place::SOURCE + width;
    let end = middle + width;
    put_head(to, mark, 0, label.len() as u8);
    crate::bytes::put_number(&mut to[Place::SOURCE..middle], source);
    crate::bytes::put_number(&mut to[middle..end], target);
    put_atoms(&mut to[end..], label);
}
