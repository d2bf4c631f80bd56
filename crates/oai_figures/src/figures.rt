use crate::expositions::Exposition;

/// A part of a server that reports figures of itself. No contract says what they are.
pub trait Figures {
    /// Adds the figures of this part to the page.
    fn report(&self, page: &mut Exposition);
}
