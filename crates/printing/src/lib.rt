// The line that is printed for an answer.
#![tactic(auto, using(lines::proofs::Texts::puts_append), unfolding(crate::specs::Line::printed))]

ghost use Rattle.std.specs.Prelude.{◌≡◌};
ghost use Rattle.lines.specs.Writers.{extended};
ghost use Rattle.printing.specs.Line.{printed};

use answers::Answer;
use lines::Writer;

// Adds the line of an answer, with the currentEpoch and the lastVoteEpoch of the node after it. It takes these two and not
// the node, which would be copied.
pub fn put_answer(out: &mut Writer, answer: Answer, current: u64, voted: u64)
    ensures { out.new ≡ extended out.old (printed answer current voted) }
{
    out.put_number(u64::from(answers::number(answer)));
    out.put(b' ');
    out.put_number(current);
    out.put(b' ');
    out.put_number(voted);
    out.put(b'\n');
}
