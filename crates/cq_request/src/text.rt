ghost use Rattle.std.specs.Prelude.{◌≡◌};
ghost use Rattle.cq_request.specs.Text as text;

/// Whether it is no longer than the text of a file may be.
pub(crate) fn is_short(content: &str) -> bool
    ensures { result ≡ text.is_short content.now }
{
    content.len() <= 1_048_576
}
