// Request 7: the job `translate_scheme`: a prelude and a scheme, as the code of the one program; or a numbered refusal with its place.
ghost use Rattle.std.specs.Prelude.{◌≡◌, length};
ghost use Rattle.translating.specs.With.{TranslatedWith, TranslatesWith, RunsAsWith};

use answers::{Answer, Refusal, Verdict};
use emitting::{clear, emit};
use reading::behind::find_both;

// Any prelude, any scheme, and the words that are used.
fn judged(prelude: &[u8], scheme: &[u8], words: &mut [u32]) -> Verdict
    requires { length words.old ≡ 16384 }
    ensures { TranslatedWith prelude.now scheme.now result words.new }
{
    let mut places = [0usize; 2048];
    let mut values = [0u64; 2048];
    let mut nodes = [0u16; 32768];
    let mut own = [0u16; 32768];
    let mut rows = [0u16; 32768];
    let mut uses = [0u16; 8192];
    let mut marks = [0u16; 2048];
    match find_both(
        prelude,
        scheme,
        &mut places,
        &mut values,
        &mut nodes,
        &mut own,
        &mut rows,
        &mut uses,
        &mut marks,
    ) {
        Ok(b) => {
            emit(
                &nodes,
                b.all.nodes,
                &uses,
                b.all.uses,
                &rows,
                b.all.rows,
                &places,
                &marks,
                &values,
                words,
            );
            Verdict::Accepted
        }
        Err(r) => {
            clear(words);
            Verdict::Refused(r)
        }
    }
}

// Any prelude, any scheme, any code words.
pub fn translate_scheme(prelude: &[u8], scheme: &[u8], code: &mut [u32]) -> Verdict
    ensures translates_with { TranslatesWith prelude.now scheme.now code.old result code.new }
    ensures runs_as_with { RunsAsWith prelude.now scheme.now result code.new }
{
    if code.len() < 16384 {
        return Verdict::Refused(Refusal::new(Answer::SHORT, 0));
    }
    judged(prelude, scheme, &mut code[..16384])
}
