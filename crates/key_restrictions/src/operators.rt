//! How relations compare.

ghost use Rattle.std.specs.Prelude.{◌≡◌};
ghost use Rattle.key_restrictions.specs.Operators.{is_equal as is_equal_of, is_lower as is_lower_of, is_upper as is_upper_of, is_strict as is_strict_of};

use cql_statement::RelationOperator;

pub(crate) fn is_equal(operator: RelationOperator) -> bool
    ensures { result ≡ is_equal_of operator }
{
    match operator {
        RelationOperator::Equal => true,
        RelationOperator::Less
        | RelationOperator::LessOrEqual
        | RelationOperator::Greater
        | RelationOperator::GreaterOrEqual => false,
    }
}

pub(crate) fn is_lower(operator: RelationOperator) -> bool
    ensures { result ≡ is_lower_of operator }
{
    match operator {
        RelationOperator::Greater | RelationOperator::GreaterOrEqual => true,
        RelationOperator::Equal | RelationOperator::Less | RelationOperator::LessOrEqual => false,
    }
}

pub(crate) fn is_upper(operator: RelationOperator) -> bool
    ensures { result ≡ is_upper_of operator }
{
    match operator {
        RelationOperator::Less | RelationOperator::LessOrEqual => true,
        RelationOperator::Equal | RelationOperator::Greater | RelationOperator::GreaterOrEqual =>
            false,
    }
}

/// The value itself does not meet it.
pub(crate) fn is_strict(operator: RelationOperator) -> bool
    ensures { result ≡ is_strict_of operator }
{
    match operator {
        RelationOperator::Less | RelationOperator::Greater => true,
        RelationOperator::Equal
        | RelationOperator::LessOrEqual
        | RelationOperator::GreaterOrEqual => false,
    }
}
