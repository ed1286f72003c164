// What a run refuses before it starts: the lowest applicable number from 9 to 19, over the whole input, changing nothing.
#![tactic(auto)]

ghost use Rattle.std.specs.Prelude.{◌≡◌};
ghost use Rattle.meaning.specs.Basics.{first_failing};
ghost use Rattle.meaning.specs.Layout.{Sized, base};
ghost use Rattle.meaning.specs.Image.{raw_program};
ghost use Rattle.meaning.specs.References.{references};
ghost use Rattle.meaning.specs.Calls.{run_refusal, lending};
ghost use Rattle.parts.specs.Series.{For};
ghost use Rattle.answers.specs.Answers.{refusal_of};
ghost use Rattle.refusal.specs.Checks.{size_checks, image_checks, content_checks};

use meaning::tags::Limit;
use meaning::{Layout, Refusal};

// References, of an image that has the form: its rules hold, and the rules and procedures that its commands name exist.
#[tactic(auto, unfolding(meaning::specs::References::references, meaning::specs::Basics::both))]
fn references_ok(image: &[u8]) -> bool
    ensures { For (raw_program image.now) (λ p. result ≡ references p) }
{
    references::rules_hold(image) && command_checks::names_exist(image)
}

// Form, references, placement and depth of an image: 16 to 19.
pub fn image_check(image: &[u8]) -> Result<(), Refusal>
    ensures { refusal_of result ≡ first_failing (image_checks image.now) }
{
    if !image::form_ok(image) {
        return Err(Refusal::BadForm);
    }
    if !references_ok(image) {
        return Err(Refusal::BadReferences);
    }
    if !command_checks::breaks_lie(image) {
        return Err(Refusal::BadPlacement);
    }
    if !command_checks::depth_holds(image) {
        return Err(Refusal::BadDepth);
    }
    Ok(())
}

// Lengths and fuel: the lowest applicable number from 9 to 14.
#[tactic(auto, unfolding(answers::specs::Answers::refusal_of, meaning::specs::Basics::first_failing, meaning::specs::Basics::choose))]
pub fn length_check(
    l: Layout,
    nodes: &[u8],
    edges: &[u8],
    journal: &[u8],
    image: &[u8],
    fuel: u32,
    report: &[u8],
) -> Result<(), Refusal>
    requires { Sized l }
    ensures { refusal_of result ≡ first_failing (size_checks l nodes.now edges.now journal.now image.now fuel report.now) }
{
    answers::lengths(l, nodes, edges, journal, report)?;
    if fuel > Limit::FUEL {
        return Err(Refusal::TooMuchFuel);
    }
    if image.len() > Limit::BYTES {
        return Err(Refusal::ImageTooLong);
    }
    Ok(())
}

// The host and the image: 15 to 19.
#[tactic(auto, unfolding(answers::specs::Answers::refusal_of, meaning::specs::Basics::first_failing, meaning::specs::Basics::choose))]
pub fn content_check(l: Layout, nodes: &[u8], edges: &[u8], image: &[u8]) -> Result<(), Refusal>
    requires { Sized l }
    ensures { refusal_of result ≡ first_failing (content_checks l nodes.now edges.now image.now) }
{
    if !host::keeps_layout(l, nodes, edges) {
        return Err(Refusal::BadHost);
    }
    image_check(image)
}

// The lowest applicable number from 9 to 19.
#[tactic(auto, unfolding(answers::specs::Answers::refusal_of))]
pub fn run_check(
    l: Layout,
    nodes: &[u8],
    edges: &[u8],
    journal: &[u8],
    image: &[u8],
    fuel: u32,
    report: &[u8],
) -> Result<(), Refusal>
    requires { Sized l }
    ensures { refusal_of result ≡ run_refusal l (lending nodes.now edges.now journal.now image.now fuel report.now) }
{
    length_check(l, nodes, edges, journal, image, fuel, report)?;
    content_check(l, nodes, edges, image)
}

// The same at document 01's layout, on all inputs.
pub fn run_refusal(
    nodes: &[u8],
    edges: &[u8],
    journal: &[u8],
    image: &[u8],
    fuel: u32,
    report: &[u8],
) -> Result<(), Refusal>
    ensures { refusal_of result ≡ run_refusal base (lending nodes.now edges.now journal.now image.now fuel report.now) }
{
    run_check(Layout::base(), nodes, edges, journal, image, fuel, report)
}
