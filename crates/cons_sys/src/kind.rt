//! What a constraint asks of the value of its row.
ghost use Rattle.std.specs.Prelude.{◌≡◌, ◌↔◌, IsTrue};
ghost use Rattle.cons_sys.specs.Kinds.{Allows, is_equality};

/// What a constraint asks of the value of its row.
#[derive(Clone, Copy, Debug, PartialEq, Eq)]
pub enum ConKind {
    /// The value is 0.
    Eq,
    /// The value is at least 0.
    Ge,
    /// The value is above 0.
    Gt,
}

impl ConKind {
    /// Whether a constraint of this kind holds where its row has the value.
    #[inline]
    pub fn allows(self, value: i128) -> bool
        ensures { IsTrue result ↔ Allows self value }
    {
        match self {
            ConKind::Eq => value == 0,
            ConKind::Ge => value >= 0,
            ConKind::Gt => value > 0,
        }
    }

    /// Whether a constraint of this kind is an equality.
    #[inline]
    pub fn is_equality(self) -> bool
        ensures { result ≡ is_equality self }
    {
        match self {
            ConKind::Eq => true,
            ConKind::Ge | ConKind::Gt => false,
        }
    }
}
