ghost use Rattle.std.specs.Prelude.{◌≡◌, nat_le, length};
ghost use Rattle.protocol.specs.Reach.{reach, highest};
ghost use Rattle.protocol.specs.Operations.{time_or_zero};
ghost use Rattle.write_core.specs.Times.{time_at};

use wire_forms::Reply;

/// How many nodes have told this time or a greater one.
fn reached(answers: &[Option<Reply>], time: u64) -> usize
    ensures { result ≡ reach nat_le (length answers.now) (time_at answers.now) time }
{
    let mut sum = 0;
    for answer in answers {
        if let Some(Reply::TimeIs(told)) = answer {
            if time <= *told {
                sum += 1;
            }
        }
    }
    sum
}

/// The greatest time that at least so many nodes have told or exceeded, or 0.
pub(crate) fn drawn(answers: &[Option<Reply>], needed: usize) -> u64
    ensures { result
        ≡ time_or_zero (highest nat_le (length answers.now) (time_at answers.now) needed) }
{
    let mut drawn = 0;
    for answer in answers {
        if let Some(Reply::TimeIs(told)) = answer {
            if drawn < *told && reached(answers, *told) >= needed {
                drawn = *told;
            }
        }
    }
    drawn
}
