// Parts of a text, without copies.
ghost use Rattle.std.specs.Prelude.{◌≡◌, ◌≢◌, ◌++◌, ℕ, List, All, IfSome, IfNone, MatchOption};
ghost use Rattle.client_script.specs.Words.{IsCut};

/// What stands before the first byte of this kind, and what follows it.
pub fn cut(text: &[u8], byte: u8) -> Option<(&[u8], &[u8])>
    ensures some { IfSome result (λ parts. IsCut text.now byte parts.0.now parts.1.now) }
    ensures none { IfNone result (All (λ other. other ≢ byte) text.now) }
{
    let at = text.iter().position(|other| *other == byte)?;
    Some((&text[..at], &text[at + 1..]))
}

/// What follows a text that stands at the front.
pub fn after<'a>(text: &'a [u8], front: &[u8]) -> Option<&'a [u8]>
    ensures { MatchOption result ((rest : List ℕ) → text.now ≢ front.now ++ rest)
        (λ rest. text.now ≡ front.now ++ rest.now) }
{
    match (text, front) {
        // Most texts differ in their first byte.
        ([first, ..], [other, ..]) if first != other => None,
        _ => text.strip_prefix(front),
    }
}
