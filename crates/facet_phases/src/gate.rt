/// Is called before and after each command of a session. A test uses it to hold one session until another was answered.
pub trait Gate {
    /// Is called on the session's thread before the command of the line is carried out. The session waits until it
    /// returns.
    fn before(&self, session: u32, line: u64);

    /// Is called on the session's thread after the command was answered. The session waits until it returns.
    fn after(&self, session: u32, line: u64);
}

/// A gate that delays nobody.
#[derive(Drop)]
pub struct OpenGate;

impl Gate for OpenGate {
    fn before(&self, _session: u32, _line: u64) {}

    fn after(&self, _session: u32, _line: u64) {}
}
