// References (answer 17) of the rules of an image that has the form. Each side of a rule and its tests are walked once, where
// they lie, and once more for each variable.
#![tactic(auto)]

ghost use Rattle.std.specs.Prelude.{◌≡◌};
ghost use Rattle.meaning.specs.Basics.{every};
ghost use Rattle.meaning.specs.Image.{raw_program};
ghost use Rattle.meaning.specs.References.{rule_holds};
ghost use Rattle.parts.specs.Series.{For};
ghost use Rattle.parts.specs.Images.{image_part};
ghost use Rattle.references.specs.Asked.{part_holds};

use meaning::tags::Tag;

mod asking;
mod rules;

// What is asked of a graph of a rule or of its tests: of every element of a label and every operand, and of what an item or a
// test names.
#[derive(Clone, Copy)]
pub enum Ask {
    // Of the left side, where there are so many nodes: named variables exist, no label has a sum or a difference or more than one
    // occurrence of a list variable, and the ends of edges are nodes.
    Left(usize),
    // Of the right side or of tests, where so many nodes can be named: named variables exist, operands are int, nodes exist, and
    // no edge has mark any.
    Right(usize),
    // That the variable does not occur.
    Lacks(usize),
}

// A rule of the image; of the main command nothing is asked here.
fn part_holds(tag: u8, p: &[u8]) -> bool
    ensures { For (image_part tag p.now) (λ i. result ≡ part_holds i) }
{
    tag != Tag::RULE || rules::rule_holds(p)
}

pub fn rules_hold(image: &[u8]) -> bool
    ensures { For (raw_program image.now) (λ x. result ≡ every rule_holds x.rules) }
{
    parts::every_field(image, part_holds)
}
