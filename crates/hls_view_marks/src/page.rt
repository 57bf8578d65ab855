// Where the parts of a page stand.
use hls_view_scale::Scale;

/// The scale of a page, and how far right its parts begin or, of numbers, end.
#[derive(Clone, Copy, Debug)]
pub struct Page {
    pub scale: Scale,
    pub seat: u128,
    pub guarantee: u128,
    pub served: u128,
    pub ready: u128,
    pub spare: u128,
    /// The first column.
    pub left: u128,
}
