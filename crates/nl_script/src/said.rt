// The lines of a script by their kind.
use nl_tree::Call;

// What a line says.
#[derive(Drop)]
pub(crate) enum Said {
    Nothing,
    // The end of an epoch.
    Barrier,
    // A worker, 0 to 7, and its call.
    CallOf(u8, Call),
}
