// The reading of a run image: five fields, each once in order, the two numbers of their sizes, and nothing behind; and the parts of
// the input that an image holds. A field of a tag at a place, and its payload, serve the reader of two tables too. The definitions
// that the contracts cite are in specs/.
#![tactic(auto)]

ghost use Rattle.std.specs.Prelude.{◌≡◌, ◌+◌, ◌-◌, ◌≤◌, length, take, drop};
ghost use Rattle.run_input.specs.Input.{most_input, most_records};
ghost use Rattle.run_input.specs.Reading.{field_head, Expects, Finds, Inside, Reading, Payload, input_of};

use meaning::JournalTable;

// A run image: the most bytes that it has, the bytes that are read so that a longer one is seen, the tags of its fields in
// their order, the bytes of a field's head, and those of the two fields that hold a number, with their head.
#[derive(Drop)]
pub struct RunImage {}

impl RunImage {
    pub const MOST: usize = 65536;

    pub const READ: usize = RunImage::MOST + 1;

    pub const NODES: u8 = 0x01;

    pub const EDGES: u8 = 0x02;

    pub const RECORDS: u8 = 0x03;

    pub const FUEL: u8 = 0x04;

    pub const PROGRAM: u8 = 0x05;

    pub const HEAD: usize = 3;

    pub const RECORDS_FIELD: usize = 5;

    pub const FUEL_FIELD: usize = 7;
}

// Where the payloads of the five fields of an input end. Each begins behind a head, at the end of the one before.
#[derive(Clone, Copy)]
pub struct Ends {
    pub nodes: usize,
    pub edges: usize,
    pub records: usize,
    pub fuel: usize,
    pub program: usize,
}

// Where the payload of the field at a place ends, if it has this tag.
pub fn expect(image: &[u8], at: usize, tag: u8) -> Option<usize>
    ensures { Expects image.now at tag result }
{
    let field = fields::read_field(image, at)?.ok()?;
    (field.tag == tag).then_some(field.end)
}

// The five fields, each once in order.
fn find_fields(image: &[u8]) -> Option<Ends>
    ensures { Finds image.now result }
{
    let nodes = expect(image, 0, RunImage::NODES)?;
    let edges = expect(image, nodes, RunImage::EDGES)?;
    let records = expect(image, edges, RunImage::RECORDS)?;
    let fuel = expect(image, records, RunImage::FUEL)?;
    let program = expect(image, fuel, RunImage::PROGRAM)?;
    Some(Ends {
        nodes,
        edges,
        records,
        fuel,
        program,
    })
}

// The input of an image.
pub fn read_input(image: &[u8]) -> Option<Ends>
    ensures { Reading image.now result }
{
    if image.len() > RunImage::MOST {
        return None;
    }
    let e = find_fields(image)?;
    let whole = e.program >= image.len()
        && e.records == e.edges + RunImage::RECORDS_FIELD
        && e.fuel == e.records + RunImage::FUEL_FIELD
        && fields::number2(image, e.edges + RunImage::HEAD) <= JournalTable::MOST;
    whole.then_some(e)
}

// The parts of an input that was read.

// The payload of the field at a place.
pub fn payload(image: &[u8], at: usize, end: usize) -> &[u8]
    requires image_len_bound { length image.now ≤ most_input }
    requires field_head_bound { (at + field_head ≤ end) × (end ≤ length image.now) }
    ensures { Payload (take (end - (at + field_head)) (drop (at + field_head) image.now)) result.now }
{
    fields::part(image, at + RunImage::HEAD, end)
}

pub fn nodes_of(image: &[u8], e: Ends) -> &[u8]
    requires { Inside image.now e }
    ensures { Payload (input_of image.now e).nodes result.now }
{
    payload(image, 0, e.nodes)
}

pub fn edges_of(image: &[u8], e: Ends) -> &[u8]
    requires { Inside image.now e }
    ensures { Payload (input_of image.now e).edges result.now }
{
    payload(image, e.nodes, e.edges)
}

pub fn records_of(image: &[u8], e: Ends) -> usize
    requires { Inside image.now e }
    ensures { (result ≡ (input_of image.now e).records) × (result ≤ most_records) }
{
    fields::number2(image, e.edges + RunImage::HEAD)
}

pub fn fuel_of(image: &[u8], e: Ends) -> u32
    requires { Inside image.now e }
    ensures { result ≡ (input_of image.now e).fuel }
{
    fields::number4(image, e.records + RunImage::HEAD) as u32
}

pub fn program_of(image: &[u8], e: Ends) -> &[u8]
    requires { Inside image.now e }
    ensures { Payload (input_of image.now e).program result.now }
{
    payload(image, e.fuel, e.program)
}
