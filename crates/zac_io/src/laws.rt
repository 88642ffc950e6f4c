//! What writes to a sink come to, as a law. It holds of every sink.
ghost use Rattle.zac_io.specs.Outside.{WritesAddUp};

/// Writes one after another leave all their bytes, in their order. Where one of them stops behind a prefix of its own bytes,
/// they leave a prefix of all.
pub fn writes_add_up()
    ensures { WritesAddUp }
{}
