// The book: contents that are sound.
ghost use Rattle.book.specs.Sound.{Sound};

use contents::Contents;

#[derive(Drop)]
pub struct Book {
    pub(crate) contents: Contents,
    ghost sound: { ∥ Sound contents ∥₁ },
}
