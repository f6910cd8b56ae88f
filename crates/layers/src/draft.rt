ghost use Rattle.std.specs.Prelude.{◌≡◌};

// A layer under drafting. Each kind of layer has its own calls on it.
#[derive(Drop)]
pub struct LayerDraft<L> {
    pub(crate) layer: L,
}

impl<L> LayerDraft<L> {
    // Ends the drafting.
    pub fn seal(self) -> L
        ensures { result ≡ self.layer }
    {
        let LayerDraft { layer } = self;
        layer
    }
}
