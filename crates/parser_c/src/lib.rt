// The static library that a C or a Rust program links: one function, under the name that bindings/ declares.
#![tactic(auto)]

ghost use Rattle.parser.specs.Outcome.{handed};
ghost use Rattle.parser.specs.Promised.{Delivered};

// `parser::lucia_parse` for C. A slice is passed as a pointer and a length.
#[unsafe(no_mangle)]
pub extern "C" fn lucia_parse(
    text: &[u8],
    tokens: &[u32],
    allowance: u32,
    nodes: &mut [u32],
    errors: &mut [u32],
    expected: &mut [u8],
    counts: &mut [u32; 4],
) -> u8
    ensures { Delivered text.now tokens.now allowance nodes.old errors.old expected.old (handed result counts.new nodes.new errors.new expected.new) }
{
    parser::lucia_parse(text, tokens, allowance, nodes, errors, expected, counts)
}
