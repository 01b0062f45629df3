/// The files of a run, each of which is opened once at most.
#[derive(Clone, Copy, Debug, PartialEq, Eq)]
pub enum Slot {
    /// The instance, which is read.
    Instance,
    /// The certificate that is checked, which is read.
    CertIn,
    /// The certificate of this run, which is written.
    CertOut,
}

/// How far a slot has come. It goes forward only.
#[derive(Clone, Copy, Debug, PartialEq, Eq)]
pub enum Stage {
    Unopened,
    Open,
    Finished,
}
