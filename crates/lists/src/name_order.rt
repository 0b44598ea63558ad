// Lists in the order of their names.

ghost use Rattle.std.specs.Prelude.{◌≡◌, List, ℕ, map};
ghost use Rattle.lists.specs.Rising.{rises};

/// What has a text by which it is put in order.
pub trait Named {
    ghost named: { Self → List ℕ };

    fn text(&self) -> &str
        ensures { result.now ≡ named self.now };
}

/// Whether each item comes before the next one, by the bytes of their texts.
pub fn rises<T: Named>(items: &[T]) -> bool
    ensures { result ≡ rises (map T.named items.now) }
{
    for place in 1..items.len() {
        let before = items[place - 1].text();
        if !before.cmp(&items[place].text()).is_lt() {
            return false;
        }
    }
    true
}
