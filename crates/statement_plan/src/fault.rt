//! Why a statement is refused.

ghost use Rattle.std.specs.Prelude.{◌≡◌};
ghost use Rattle.statement_plan.specs.Faults.{name_of, number_of, lower_of};

/// What CQL has and this product has not, where a statement asks for it.
#[derive(Clone, Copy, Debug, PartialEq, Eq)]
pub enum Feature {
    /// `CREATE` on a schema that stands.
    Create,
    /// A batch of no statement, or of several partitions.
    Batch,
    /// A condition in a batch, or one on a key column.
    Condition,
    /// A key column among the columns of a `DELETE`.
    DeletedKey,
    /// A relation on a column that is not of the key, which wants ALLOW FILTERING.
    Filtering,
    /// An `ORDER BY` of other columns than the first clustering columns, or one that is neither the table's order nor its
    /// reverse.
    OrderBy,
}

/// Why a statement is refused. Of several the one that stands first here is told.
#[derive(Clone, Copy, Debug, PartialEq, Eq)]
pub enum Fault {
    /// No keyspace is named or in use, or there is no such table in it.
    UnknownTable,
    /// A column that the table has not.
    UnknownColumn,
    /// The statement leaves open a key column that it has to fix, or bounds one that it has to fix.
    KeyMissing,
    /// A key column is fixed or bounded more than once, or set.
    KeyTwice,
    /// A constant or a value that is none of its column's type.
    TypeMismatch,
    /// More or fewer values than markers, or than columns.
    ValueCount,
    /// A key column is null or not set.
    NullKey,
    /// A conditional statement has a timestamp.
    TimestampOnCondition,
    NotSupported(Feature),
    /// A value of more than 1 MiB.
    ValueTooLong,
    /// A partition key, or a row's clustering values, of more than 65,535 bytes.
    KeyTooLong,
    /// A partition key of one column, without a byte.
    EmptyKey,
    /// Changes of more than 4 MiB.
    MutationTooLong,
    /// `USE` of a keyspace that is not there.
    UnknownKeyspace,
}

impl Fault {
    /// The name that is printed and sent.
    pub fn name(self) -> &'static str
        ensures { result.now ≡ name_of self }
    {
        match self {
            Fault::UnknownTable => "UnknownTable",
            Fault::UnknownColumn => "UnknownColumn",
            Fault::KeyMissing => "KeyMissing",
            Fault::KeyTwice => "KeyTwice",
            Fault::TypeMismatch => "TypeMismatch",
            Fault::ValueCount => "ValueCount",
            Fault::NullKey => "NullKey",
            Fault::TimestampOnCondition => "TimestampOnCondition",
            Fault::NotSupported(_) => "NotSupported",
            Fault::ValueTooLong => "ValueTooLong",
            Fault::KeyTooLong => "KeyTooLong",
            Fault::EmptyKey => "EmptyKey",
            Fault::MutationTooLong => "MutationTooLong",
            Fault::UnknownKeyspace => "UnknownKeyspace",
        }
    }

    /// Its place among all faults, from 1 on.
    fn number(self) -> u8
        ensures { result ≡ number_of self }
    {
        match self {
            Fault::UnknownTable => 1,
            Fault::UnknownColumn => 2,
            Fault::KeyMissing => 3,
            Fault::KeyTwice => 4,
            Fault::TypeMismatch => 5,
            Fault::ValueCount => 6,
            Fault::NullKey => 7,
            Fault::TimestampOnCondition => 8,
            Fault::NotSupported(_) => 9,
            Fault::ValueTooLong => 10,
            Fault::KeyTooLong => 11,
            Fault::EmptyKey => 12,
            Fault::MutationTooLong => 13,
            Fault::UnknownKeyspace => 14,
        }
    }

    /// That of two which is told, and of two in one place the first.
    pub fn lower(self, other: Fault) -> Fault
        ensures { result ≡ lower_of self other }
    {
        if other.number() < self.number() {
            other
        } else {
            self
        }
    }
}
