// A bundle's answer: what the lister prints for it. The buffers that a sheet is read into are this crate's own.
#![tactic(auto)]

ghost use Rattle.std.specs.Prelude.{◌≡◌};
ghost use Rattle.listing.specs.Answers.{wrote, written};
ghost use Rattle.listing.specs.Listing.{refusal_of};
ghost use Rattle.answer.specs.Answer.{answer_of, sheet_answer};

use listing::{Counts, LENT_ERRORS, LENT_EXPECTED, LENT_NODES, LENT_OUT};

// The readings that the lister allows.
const ALLOWANCE: u32 = 100000;

// The number that stands for a bundle that is none, here and in `words`, which stands on no other line of this crate.
const NO_BUNDLE: u8 = 12;

// The bytes of text and the words of tokens that the lister has room for.
const TEXT_ROOM: usize = 16384;

const TOKEN_ROOM: usize = 4500;

// What is printed for a refusal.
fn refused(out: &mut [u8; LENT_OUT], number: u8) -> usize
    ensures { wrote result out.new ≡ written (refusal_of number) out.old }
{
    listing::refusal(out, number).unwrap()
}

// What is printed for a sheet.
fn sheet(text: &[u8], tokens: &[u32], out: &mut [u8; LENT_OUT]) -> usize
    ensures { wrote result out.new ≡ written (sheet_answer text.now tokens.now) out.old }
{
    let mut nodes = [0u32; LENT_NODES];
    let mut errors = [0u32; LENT_ERRORS];
    let mut expected = [0u8; LENT_EXPECTED];
    let got = parser::parse(
        text,
        tokens,
        ALLOWANCE,
        &mut nodes,
        &mut errors,
        &mut expected,
    );
    match got {
        Ok(reading) => {
            let counts = Counts {
                reads: reading.reads,
                nodes: reading.nodes,
                errors: reading.errors,
            };
            listing::lent_listing(&nodes, &errors, &expected, out, counts)
        }
        Err(refusal) => refused(out, refusal.number()),
    }
}

// Writes what is printed for a bundle at the buffer's start, and answers how many bytes it is.
pub fn answer(bundle: &[u8], out: &mut [u8; LENT_OUT]) -> usize
    ensures { wrote result out.new ≡ written (answer_of bundle.now) out.old }
{
    let mut text = [0u8; TEXT_ROOM];
    let mut tokens = [0u32; TOKEN_ROOM];
    match listing::decode(bundle, &mut text, &mut tokens) {
        Some(found) => sheet(&text[..found.text], &tokens[..3 * found.tokens], out),
        None => refused(out, NO_BUNDLE),
    }
}
