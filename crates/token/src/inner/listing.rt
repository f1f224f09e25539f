// The table of a text's tokens: a row of numbers for each. Only the functions here know what stands
// where in a row.
ghost use Rattle.std.specs.Prelude.{◌≡◌, ◌+◌, ◌*◌, ◌/◌, ◌<◌, ◌≤◌, length, get_or};
ghost use Rattle.std.proofs.lemmas.List.Edits.{sets};
ghost use Rattle.token.specs.Lists.{tok};
ghost use Rattle.token.specs.Table.{token_size, row_of, toks, Lent, kind, start, end};

// The numbers in a row.
pub const TOKEN_SIZE: usize = 3;

// Puts a token behind n others.
pub fn put_token(tokens: &mut [u32], n: usize, kind: u32, start: u32, end: u32)
    requires { n * token_size + token_size ≤ length tokens.old }
    ensures { tokens.new ≡ sets tokens.old (n * token_size) (row_of (tok kind start end)) }
{
    let i = n * TOKEN_SIZE;
    tokens[i] = kind;
    tokens[i + 1] = start;
    tokens[i + 2] = end;
}

// How many tokens the table has.
pub fn token_count(text: &[u8], tokens: &[u32]) -> usize
    requires { Lent text.now tokens.now }
    ensures { result ≡ length (toks text.now) }
{
    tokens.len() / TOKEN_SIZE
}

// A number of a token's row, by its column; past the last token, what is to stand for it.
fn number_at(tokens: &[u32], at: usize, column: usize, past: usize) -> usize
    requires { column < token_size }
    ensures inside { at < length tokens.now / token_size → result ≡ get_or tokens.now (at * token_size + column) 0 }
    ensures outside { length tokens.now / token_size ≤ at → result ≡ past }
{
    if tokens.len() / TOKEN_SIZE <= at {
        return past;
    }
    tokens[at * TOKEN_SIZE + column] as usize
}

// A token's kind; past the last token, 0.
pub fn kind_at(text: &[u8], tokens: &[u32], at: usize) -> u8
    requires { Lent text.now tokens.now }
    ensures { result ≡ kind text.now at }
{
    number_at(tokens, at, 0, 0) as u8
}

// Its start; past the last token, the text's length.
pub fn start_at(text: &[u8], tokens: &[u32], at: usize) -> usize
    requires { Lent text.now tokens.now }
    ensures { result ≡ start text.now at }
{
    number_at(tokens, at, 1, text.len())
}

// Its end; past the last token, the text's length.
pub fn end_at(text: &[u8], tokens: &[u32], at: usize) -> usize
    requires { Lent text.now tokens.now }
    ensures { result ≡ end text.now at }
{
    number_at(tokens, at, 2, text.len())
}
