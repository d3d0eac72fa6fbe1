// A bundle: the text and the tokens of a sheet, each after its count.
ghost use Rattle.std.specs.Prelude.{◌≡◌, ◌+◌, ◌*◌, ◌≤◌, ◌<◌, IfSome, length, get_or};
ghost use Rattle.listing.specs.Bundle.{little, token_words, as_decoded, decoded_into};

// The bytes of a count, of both, and of a token.
const COUNT_BYTES: usize = 4;

const BOTH_COUNTS: usize = 8;

const TOKEN_BYTES: usize = 9;

// How many bytes of text and how many tokens the buffers now hold.
#[derive(Clone, Copy)]
pub struct Decoded {
    pub text: usize,
    pub tokens: usize,
}

// The number that four bytes spell, the lowest first.
fn little(bytes: &[u8], at: usize) -> u32
    requires { at + 4 ≤ length bytes.now }
    ensures { result ≡ little bytes.now at }
{
    u32::from_le_bytes([bytes[at], bytes[at + 1], bytes[at + 2], bytes[at + 3]])
}

// The tokens, from a place of the bundle on: a byte for the kind, four for the start, four for the end. By index, since nothing is known of a
// slice once an adapter of `chunks_exact_mut` has written it.
fn copy_tokens(bundle: &[u8], tokens: &mut [u32], from: usize, m: usize)
    requires { (from + 9 * m ≤ length bundle.now) × (3 * m ≤ length tokens.old) }
    ensures { tokens.new ≡ token_words bundle.now from m tokens.old }
{
    for j in 0..m {
        let at = from + TOKEN_BYTES * j;
        tokens[3 * j] = u32::from(bundle[at]);
        tokens[3 * j + 1] = little(bundle, at + 1);
        tokens[3 * j + 2] = little(bundle, at + 5);
    }
}

// Decodes a bundle into the buffers for its text and its tokens. A bundle cut short, with bytes left over or larger than the buffers
// is refused and leaves them as they were.
pub fn decode(bundle: &[u8], text: &mut [u8], tokens: &mut [u32]) -> Option<Decoded>
    ensures within { IfSome result (λ d. (d.text ≤ length text.old) × (3 * d.tokens ≤ length tokens.old)) }
    ensures sheet { as_decoded result text.new tokens.new ≡ decoded_into bundle.now text.old tokens.old }
{
    if bundle.len() < BOTH_COUNTS {
        return None;
    }
    let n = little(bundle, 0) as usize;
    if bundle.len() - BOTH_COUNTS < n || text.len() < n {
        return None;
    }
    let m = little(bundle, COUNT_BYTES + n) as usize;
    let from = BOTH_COUNTS + n;
    if tokens.len() / 3 < m || bundle.len() != from + TOKEN_BYTES * m {
        return None;
    }
    text[..n].copy_from_slice(&bundle[COUNT_BYTES..COUNT_BYTES + n]);
    copy_tokens(bundle, tokens, from, m);
    Some(Decoded { text: n, tokens: m })
}
