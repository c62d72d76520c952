//! The forms of names.
ghost use Rattle.std.specs.Prelude.{◌≡◌, map};
ghost use Rattle.std.specs.List.{list_all, list_any};
ghost use Rattle.std.specs.Str.{bytes_eq};
ghost use Rattle.script_lang.specs.Names.{is_node_byte, is_pool_byte, is_short, begins_with_dot, is_node, is_pool, are_distinct};

/// A letter, a digit or `-`.
fn is_node_byte(b: u8) -> bool
    ensures { result ≡ is_node_byte b }
{
    b.is_ascii_alphanumeric() || b == b'-'
}

/// The same, or `.` or `_`.
fn is_pool_byte(b: u8) -> bool
    ensures { result ≡ is_pool_byte b }
{
    is_node_byte(b) || b == b'.' || b == b'_'
}

/// Whether a text has 1 to 64 bytes.
fn is_short(text: &str) -> bool
    ensures { result ≡ is_short text.now }
{
    1 <= text.len() && text.len() <= 64
}

fn all_node_bytes(text: &[u8]) -> bool
    ensures { result ≡ list_all is_node_byte text.now }
{
    text.iter().all(|b| is_node_byte(*b))
}

fn all_pool_bytes(text: &[u8]) -> bool
    ensures { result ≡ list_all is_pool_byte text.now }
{
    text.iter().all(|b| is_pool_byte(*b))
}

fn begins_with_dot(text: &[u8]) -> bool
    ensures { result ≡ begins_with_dot text.now }
{
    matches!(text, [b'.', ..])
}

/// Whether a text is the name of a node, or the UUID of a volume: 1 to 64 ASCII letters, digits and `-`.
pub fn is_node(text: &str) -> bool
    ensures { result ≡ is_node text.now }
{
    is_short(text) && all_node_bytes(text.as_bytes())
}

/// Whether a text is the name of a pool: 1 to 64 ASCII letters, digits, `-`, `.` and `_`, the first of them no `.`.
pub fn is_pool(text: &str) -> bool
    ensures { result ≡ is_pool text.now }
{
    is_short(text) && all_pool_bytes(text.as_bytes()) && !begins_with_dot(text.as_bytes())
}

/// Whether a text is one of those.
fn is_among(texts: &[&str], text: &str) -> bool
    ensures { result ≡ list_any (λ one. bytes_eq text.now one.now) texts.now }
{
    texts.iter().any(|one| text == *one)
}

/// Whether no two texts are one.
pub fn are_distinct(texts: &[&str]) -> bool
    ensures { result ≡ are_distinct (map (λ text. text.now) texts.now) }
{
    for at in 0..texts.len() {
        if is_among(&texts[at + 1..], texts[at]) {
            return false;
        }
    }
    true
}
