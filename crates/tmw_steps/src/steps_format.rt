/// The format of a list of steps. It has one version.
#[derive(Clone, Copy, PartialEq, Eq, Debug)]
pub struct StepsFormat;
