// The tables of a record written as a file, with what the file is then; and a file that is loaded and written again.
#![tactic(auto)]

ghost use Rattle.std.specs.Prelude.{◌≡◌};
ghost use Rattle.answers.specs.Answers.{number_of};
ghost use Rattle.writing.specs.Writing.{Written, rewrite_answer, rewritten_to};

use answers::Answer;
use area::{Area, Outcome};
use loading::load;

// By value: only of a record of its own does a function know the lengths of all its lists, by which the file that is written loads as the
// tables.
pub fn write(area: Area, buffer: &mut [u8]) -> Answer
    ensures { Written area buffer.old (number_of result) buffer.new }
{
    area.write(buffer)
}

// Loads a file and writes it into a buffer, which is then the file. Load's answer where it refuses the file.
pub fn rewrite(file: &[u8], buffer: &mut [u8]) -> Answer
    ensures value { result ≡ rewrite_answer file.now buffer.old }
    ensures buffer_after { buffer.new ≡ rewritten_to file.now buffer.old }
{
    let Outcome { answer, area } = load(file);
    if let Answer::Refused { .. } = answer {
        return answer;
    }
    area.write(buffer)
}
