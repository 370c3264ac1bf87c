//! The types of values, as headers state them.

ghost use Rattle.std.specs.Prelude.{◌≡◌};
ghost use Rattle.pq_thrift.specs.Kinds.{kind_of};

/// The type of a value as the low half of a header states it (Thrift compact protocol, "Struct").
#[derive(Clone, Copy, Debug, PartialEq, Eq)]
pub enum Kind {
    True,
    False,
    I8,
    I16,
    I32,
    I64,
    Double,
    Binary,
    List,
    Set,
    Map,
    Struct,
}

/// The type that a number stands for, where it stands for one.
pub fn kind_from(number: u8) -> Option<Kind>
    ensures { result ≡ kind_of number }
{
    match number {
        1 => Some(Kind::True),
        2 => Some(Kind::False),
        3 => Some(Kind::I8),
        4 => Some(Kind::I16),
        5 => Some(Kind::I32),
        6 => Some(Kind::I64),
        7 => Some(Kind::Double),
        8 => Some(Kind::Binary),
        9 => Some(Kind::List),
        10 => Some(Kind::Set),
        11 => Some(Kind::Map),
        12 => Some(Kind::Struct),
        _ => None,
    }
}
