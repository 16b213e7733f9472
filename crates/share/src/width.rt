// A share compared as the number of its billionths.
use crate::share::Share;
use number::Number;

impl Number for Share {
    ghost value = { λ s. s };

    fn wide(&self) -> u64 {
        self.billionths()
    }
}
