// The number and the reason of each answer.
ghost use Rattle.std.specs.Prelude.{◌≡◌};
ghost use Rattle.list_counting.specs.Endings as endings;

use crate::Ending;

// 0 where all items asked for were carried out, 1 stopped by a reason, 2 outside.
pub fn ending_number(ending: Ending) -> u32
    ensures { result ≡ endings.ending_number ending }
{
    match ending {
        Ending::GoesOn => 0,
        Ending::Stopped(_) => 1,
        Ending::Outside(_) => 2,
    }
}

// The reason of a stop, the number of the reason to stand outside, else 0.
pub fn ending_reason(ending: Ending) -> u32
    ensures { result ≡ endings.ending_reason ending }
{
    match ending {
        Ending::GoesOn => 0,
        Ending::Stopped(x) => x,
        Ending::Outside(why) => u32::from(why),
    }
}
