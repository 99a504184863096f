// The job `translate`: what the front end finds, as code; or a numbered refusal with its place.
ghost use Rattle.std.specs.Prelude.{◌≡◌, length};
ghost use Rattle.translating.specs.Job.{Translated, Translates, RunsAs};

use answers::{Answer, Refusal, Verdict};
use emitting::{clear, emit};
use reading::finding::find;

// Any source, and the words that are used.
fn judged(source: &[u8], words: &mut [u32]) -> Verdict
    requires { length words.old ≡ 16384 }
    ensures { Translated source.now result words.new }
{
    let mut kinds = [0u8; 2048];
    let mut places = [0usize; 2048];
    let mut values = [0u64; 2048];
    let mut nodes = [0u16; 32768];
    let mut rows = [0u16; 32768];
    let mut uses = [0u16; 8192];
    let mut marks = [0u16; 2048];
    match find(
        source,
        &mut kinds,
        &mut places,
        &mut values,
        &mut nodes,
        &mut rows,
        &mut uses,
        &mut marks,
    ) {
        Ok(s) => {
            emit(
                &nodes, s.nodes, &uses, s.uses, &rows, s.rows, &places, &marks, &values, words,
            );
            Verdict::Accepted
        }
        Err(r) => {
            clear(words);
            Verdict::Refused(r)
        }
    }
}

// Any source, any code words.
pub fn translate(source: &[u8], code: &mut [u32]) -> Verdict
    ensures translates { Translates source.now code.old result code.new }
    ensures runs_as { RunsAs source.now result code.new }
{
    if code.len() < 16384 {
        return Verdict::Refused(Refusal::new(Answer::SHORT, 0));
    }
    judged(source, &mut code[..16384])
}
