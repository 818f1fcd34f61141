//! Operators, as the argument of an instruction numbers them.

ghost use Rattle.py_code.specs.Operators.{binary_operators, comparison_operators, raise_kinds, test_operators};
ghost use Rattle.py_code.specs.Numbers.{binary_number, comparison_number, conversion_flags, conversion_number, raise_number, test_number, unary_number, unary_operators, Numbers, Reads};

use thiserror::Error;

/// A number that stands for no operator.
#[derive(Clone, Copy, Debug, PartialEq, Eq, Error)]
#[error("no operator has the number {0}")]
pub struct NoOperator(pub u32);

/// An operator of two values, named as the symbol that Python writes.
#[derive(Clone, Copy, Debug, PartialEq, Eq)]
pub enum BinaryOperator {
    Power,
    Multiply,
    MatrixMultiply,
    Divide,
    FloorDivide,
    Modulo,
    Add,
    Subtract,
    Lshift,
    Rshift,
    And,
    Xor,
    Or,
}

impl From<BinaryOperator> for u32 {
    ghost from_gives = { Numbers binary_operators binary_number };

    fn from(operator: BinaryOperator) -> u32 {
        match operator {
            BinaryOperator::Power => 0,
            BinaryOperator::Multiply => 1,
            BinaryOperator::MatrixMultiply => 2,
            BinaryOperator::Divide => 3,
            BinaryOperator::FloorDivide => 4,
            BinaryOperator::Modulo => 5,
            BinaryOperator::Add => 6,
            BinaryOperator::Subtract => 7,
            BinaryOperator::Lshift => 8,
            BinaryOperator::Rshift => 9,
            BinaryOperator::And => 10,
            BinaryOperator::Xor => 11,
            BinaryOperator::Or => 12,
        }
    }
}

impl TryFrom<u32> for BinaryOperator {
    type Error = NoOperator;

    ghost try_from_gives = { Reads binary_operators binary_number };

    fn try_from(number: u32) -> Result<BinaryOperator, NoOperator> {
        match number {
            0 => Ok(BinaryOperator::Power),
            1 => Ok(BinaryOperator::Multiply),
            2 => Ok(BinaryOperator::MatrixMultiply),
            3 => Ok(BinaryOperator::Divide),
            4 => Ok(BinaryOperator::FloorDivide),
            5 => Ok(BinaryOperator::Modulo),
            6 => Ok(BinaryOperator::Add),
            7 => Ok(BinaryOperator::Subtract),
            8 => Ok(BinaryOperator::Lshift),
            9 => Ok(BinaryOperator::Rshift),
            10 => Ok(BinaryOperator::And),
            11 => Ok(BinaryOperator::Xor),
            12 => Ok(BinaryOperator::Or),
            _ => Err(NoOperator(number)),
        }
    }
}

/// A comparison of two values by their own methods.
#[derive(Clone, Copy, Debug, PartialEq, Eq)]
pub enum ComparisonOperator {
    Less,
    Greater,
    Equal,
    LessOrEqual,
    GreaterOrEqual,
    NotEqual,
}

impl From<ComparisonOperator> for u32 {
    ghost from_gives = { Numbers comparison_operators comparison_number };

    fn from(operator: ComparisonOperator) -> u32 {
        match operator {
            ComparisonOperator::Less => 0,
            ComparisonOperator::Greater => 1,
            ComparisonOperator::Equal => 2,
            ComparisonOperator::LessOrEqual => 3,
            ComparisonOperator::GreaterOrEqual => 4,
            ComparisonOperator::NotEqual => 5,
        }
    }
}

impl TryFrom<u32> for ComparisonOperator {
    type Error = NoOperator;

    ghost try_from_gives = { Reads comparison_operators comparison_number };

    fn try_from(number: u32) -> Result<ComparisonOperator, NoOperator> {
        match number {
            0 => Ok(ComparisonOperator::Less),
            1 => Ok(ComparisonOperator::Greater),
            2 => Ok(ComparisonOperator::Equal),
            3 => Ok(ComparisonOperator::LessOrEqual),
            4 => Ok(ComparisonOperator::GreaterOrEqual),
            5 => Ok(ComparisonOperator::NotEqual),
            _ => Err(NoOperator(number)),
        }
    }
}

/// An operator of one value.
#[derive(Clone, Copy, Debug, PartialEq, Eq)]
pub enum UnaryOperator {
    Not,
    Invert,
    Minus,
    Plus,
}

impl From<UnaryOperator> for u32 {
    ghost from_gives = { Numbers unary_operators unary_number };

    fn from(operator: UnaryOperator) -> u32 {
        match operator {
            UnaryOperator::Not => 0,
            UnaryOperator::Invert => 1,
            UnaryOperator::Minus => 2,
            UnaryOperator::Plus => 3,
        }
    }
}

impl TryFrom<u32> for UnaryOperator {
    type Error = NoOperator;

    ghost try_from_gives = { Reads unary_operators unary_number };

    fn try_from(number: u32) -> Result<UnaryOperator, NoOperator> {
        match number {
            0 => Ok(UnaryOperator::Not),
            1 => Ok(UnaryOperator::Invert),
            2 => Ok(UnaryOperator::Minus),
            3 => Ok(UnaryOperator::Plus),
            _ => Err(NoOperator(number)),
        }
    }
}

/// A test of two values that always gives a truth value.
#[derive(Clone, Copy, Debug, PartialEq, Eq)]
pub enum TestOperator {
    In,
    NotIn,
    Is,
    IsNot,
    /// Whether an exception is one that a handler names.
    ExceptionMatch,
}

impl From<TestOperator> for u32 {
    ghost from_gives = { Numbers test_operators test_number };

    fn from(operator: TestOperator) -> u32 {
        match operator {
            TestOperator::In => 0,
            TestOperator::NotIn => 1,
            TestOperator::Is => 2,
            TestOperator::IsNot => 3,
            TestOperator::ExceptionMatch => 4,
        }
    }
}

impl TryFrom<u32> for TestOperator {
    type Error = NoOperator;

    ghost try_from_gives = { Reads test_operators test_number };

    fn try_from(number: u32) -> Result<TestOperator, NoOperator> {
        match number {
            0 => Ok(TestOperator::In),
            1 => Ok(TestOperator::NotIn),
            2 => Ok(TestOperator::Is),
            3 => Ok(TestOperator::IsNot),
            4 => Ok(TestOperator::ExceptionMatch),
            _ => Err(NoOperator(number)),
        }
    }
}

/// What turns a value into text before it is formatted.
#[derive(Clone, Copy, Debug, PartialEq, Eq)]
pub enum ConversionFlag {
    /// The value as it is.
    None,
    Str,
    Ascii,
    Repr,
}

impl From<ConversionFlag> for u32 {
    ghost from_gives = { Numbers conversion_flags conversion_number };

    fn from(operator: ConversionFlag) -> u32 {
        match operator {
            ConversionFlag::None => 0,
            ConversionFlag::Str => 1,
            ConversionFlag::Ascii => 2,
            ConversionFlag::Repr => 3,
        }
    }
}

impl TryFrom<u32> for ConversionFlag {
    type Error = NoOperator;

    ghost try_from_gives = { Reads conversion_flags conversion_number };

    fn try_from(number: u32) -> Result<ConversionFlag, NoOperator> {
        match number {
            0 => Ok(ConversionFlag::None),
            1 => Ok(ConversionFlag::Str),
            2 => Ok(ConversionFlag::Ascii),
            3 => Ok(ConversionFlag::Repr),
            _ => Err(NoOperator(number)),
        }
    }
}

/// How an exception is raised.
#[derive(Clone, Copy, Debug, PartialEq, Eq)]
pub enum RaiseKind {
    /// The exception that is handled.
    Reraise,
    /// An exception of its own.
    Raise,
    /// An exception with its cause.
    RaiseCause,
}

impl From<RaiseKind> for u32 {
    ghost from_gives = { Numbers raise_kinds raise_number };

    fn from(operator: RaiseKind) -> u32 {
        match operator {
            RaiseKind::Reraise => 0,
            RaiseKind::Raise => 1,
            RaiseKind::RaiseCause => 2,
        }
    }
}

impl TryFrom<u32> for RaiseKind {
    type Error = NoOperator;

    ghost try_from_gives = { Reads raise_kinds raise_number };

    fn try_from(number: u32) -> Result<RaiseKind, NoOperator> {
        match number {
            0 => Ok(RaiseKind::Reraise),
            1 => Ok(RaiseKind::Raise),
            2 => Ok(RaiseKind::RaiseCause),
            _ => Err(NoOperator(number)),
        }
    }
}
