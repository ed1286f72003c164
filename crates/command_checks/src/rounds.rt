// The heights of procedures: how deep each one's command is with procedures put in for calls. They are found in rounds, lower
// ones before higher ones, so that a call is answered by the height of its procedure.
ghost use Rattle.std.specs.Prelude.{◌≡◌, ◌-◌, ◌<◌, length, get_or};
ghost use Rattle.meaning.specs.Image.{skip, raw_program};
ghost use Rattle.meaning.specs.Procedures.{depth_holds};
ghost use Rattle.parts.specs.Series.{For};
ghost use Rattle.command_checks.specs.Heights.{Height, Heights};

use crate::Demand;
use meaning::tags::Limit;

// The height of procedure i after round n: n where it was not known and the procedure is at most n deep, else as it was.
fn raised(image: &[u8], heights: &[Option<u8>], i: usize, n: u8) -> Option<u8>
    ensures { For (raw_program image.now) (λ p. Heights p.procedures (n - 1) heights.now → i < length p.procedures → Height p.procedures n result (get_or p.procedures i skip)) }
{
    let asked = Demand::Depth(usize::from(n));
    match crate::height(heights, i) {
        None => crate::procedure_holds(asked, heights, image, i).then_some(n),
        known => known,
    }
}

// Round n. Heights that it has found stand among the others: a call in this round has no room for them.
fn raise(image: &[u8], heights: &mut [Option<u8>], n: u8)
    ensures { For (raw_program image.now) (λ p. Heights p.procedures (n - 1) heights.old → Heights p.procedures n heights.new) }
{
    for i in 0..heights.len() {
        heights[i] = raised(image, heights, i, n);
    }
}

// Whether the depth limit holds. `heights` has a place for each procedure, where none is known yet, and is written over.
pub fn depth_fits(image: &[u8], heights: &mut [Option<u8>]) -> bool
    ensures { For (raw_program image.now) (λ p. Heights p.procedures 0 heights.old → result ≡ depth_holds p) }
{
    for n in 1..Limit::DEPTH as u8 {
        raise(image, heights, n);
    }
    crate::all_hold(Demand::Depth(Limit::DEPTH), heights, image)
}
