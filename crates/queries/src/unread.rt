// The part of a piece that a feed left unread.
ghost use Rattle.std.specs.Prelude.{◌≡◌, min, length};
ghost use Rattle.rules.specs.Calls.{unread};

// Where a piece is unread from. A count over the piece's length leaves nothing.
pub fn unread_from(piece: &[u8], consumed: usize) -> usize
    ensures { result ≡ min consumed (length piece.now) }
{
    consumed.min(piece.len())
}

pub fn unread<'a>(piece: &'a [u8], consumed: usize) -> &'a [u8]
    ensures { result.now ≡ unread piece.now consumed }
{
    let from = unread_from(piece, consumed);
    &piece[from..]
}
