// The stamps of the two words that are shown, four bytes each, made within the lent bytes themselves.
ghost use Rattle.std.specs.Prelude.{◌≡◌, ◌*◌, ◌≤◌, length};
ghost use Rattle.wire.specs.Bytes.{wholes};
ghost use Rattle.parts.specs.Parts.{left_over};
ghost use Rattle.words.specs.Left.{words_left};

use layout::Fours;
use table::Row;
use words::write_word_on;

// The late word, then the early word for the steps k and m in the part that begins after it.
// Beside `words::write_words`, since each lends the writer of a word the part at the trace's length: that many numbers there, four bytes for each here.
pub(crate) fn put_words(rows: &[Row], trace: &[u16], k: usize, m: usize, out: &mut [u8])
    requires { length trace.now * 8 ≤ length out.old }
    ensures is { wholes 4 out.new ≡ words_left rows.now trace.now k m (wholes 4 out.old) }
    ensures rest { left_over 4 out.new ≡ left_over 4 out.old }
{
    write_word_on::<Fours>(rows, trace, k, k, out);
    let at = trace.len() * 4;
    write_word_on::<Fours>(rows, trace, k, m, &mut out[at..]);
}
