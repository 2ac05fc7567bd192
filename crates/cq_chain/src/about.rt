use cq_base::Settings;

/// What cells are made with: the settings of their board, how many callers it has, and whether only the first of them accepts
/// changes.
#[derive(Clone, Copy, Drop)]
pub struct About {
    pub settings: Settings,
    pub callers: u32,
    pub first_only: bool,
}
