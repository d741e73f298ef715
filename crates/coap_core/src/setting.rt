//! What a proxy is made with.
use coap_model::Limits;
use coap_target::Routes;

/// What a proxy is made with, which no step changes.
#[derive(Drop)]
pub(crate) struct Setting {
    pub(crate) limits: Limits,
    pub(crate) routes: Routes,
    /// The first Message ID given, or to be given.
    pub(crate) first_id: u16,
    /// What makes its tokens differ from those of earlier runs.
    pub(crate) salt: u64,
}
