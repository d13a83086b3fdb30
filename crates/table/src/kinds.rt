// The seventeen kinds of node, the classes in which they stand as children, and the forms that lists of children have.
ghost use Rattle.std.specs.Prelude.{◌≡◌, ok_or};
ghost use Rattle.table.specs.Kinds.{kind_at, class_of, limits, limits_of, within};
ghost use Rattle.table.specs.Forms.{after, complete, form_of};

use language::values::UnknownNumber;

// The kinds, in the order of their numbers 1 to 17.
#[derive(Clone, Copy, PartialEq, Eq, Debug)]
pub enum Kind {
    Program,
    Variable,
    Function,
    Parameter,
    Body,
    Assignment,
    CallStatement,
    IfStatement,
    Block,
    Integer,
    Truth,
    Read,
    Not,
    Operator,
    IfExpression,
    ValueBlock,
    Call,
}

// What a node counts as among the children of another.
#[derive(Clone, Copy, PartialEq, Eq, Debug)]
pub enum Class {
    Declaration,
    Parameter,
    Body,
    Statement,
    Block,
    Expression,
    ValueBlock,
    // a program, or no kind at all: never a child
    Other,
}

// The children that are still to come, under one node.
#[derive(Clone, Copy, PartialEq, Eq, Debug)]
pub(crate) enum Form {
    // none
    Nothing,
    // one expression; two; any number of them
    OneExpression,
    TwoExpressions,
    Expressions,
    // one expression; or declarations, one or more, then statements, then at most one expression
    Whole,
    // declarations, statements, at most one expression
    Declarations,
    // statements, at most one expression
    Statements,
    // parameters, one body
    Parameters,
    // an expression, a block, at most one more block
    Condition,
    // a block, at most one more
    FirstBlock,
    // at most one block
    SecondBlock,
    // statements, one or more
    SomeStatements,
    // statements and nothing else
    OnlyStatements,
    // an expression, two value blocks
    Choice,
    // two value blocks; one
    TwoValueBlocks,
    OneValueBlock,
    // statements, one expression
    Value,
}

// What the sub and the value of a record may be: sub from low to high, value to most.
#[derive(Clone, Copy, PartialEq, Eq, Debug)]
pub(crate) struct Limits {
    low: u32,
    high: u32,
    most: u32,
}

// Names are numbers to 1,023.
const NAME: u32 = 1_023;

const GREATEST: u32 = 2_147_483_647;

impl Limits {
    fn new(low: u32, high: u32, most: u32) -> Limits
        ensures { result ≡ limits low high most }
    {
        Limits { low, high, most }
    }

    fn admit(self, sub: u32, value: u32) -> bool
        ensures { result ≡ within self sub value }
    {
        (self.low..=self.high).contains(&sub) && value <= self.most
    }
}

impl TryFrom<u32> for Kind {
    type Error = UnknownNumber;

    ghost try_from_gives = { λ n r. r ≡ ok_or (kind_at n) (record { 0 = n }) };

    fn try_from(value: u32) -> Result<Kind, UnknownNumber> {
        match value {
            1 => Ok(Kind::Program),
            2 => Ok(Kind::Variable),
            3 => Ok(Kind::Function),
            4 => Ok(Kind::Parameter),
            5 => Ok(Kind::Body),
            6 => Ok(Kind::Assignment),
            7 => Ok(Kind::CallStatement),
            8 => Ok(Kind::IfStatement),
            9 => Ok(Kind::Block),
            10 => Ok(Kind::Integer),
            11 => Ok(Kind::Truth),
            12 => Ok(Kind::Read),
            13 => Ok(Kind::Not),
            14 => Ok(Kind::Operator),
            15 => Ok(Kind::IfExpression),
            16 => Ok(Kind::ValueBlock),
            17 => Ok(Kind::Call),
            _ => Err(UnknownNumber(value)),
        }
    }
}

impl Kind {
    pub fn class(self) -> Class
        ensures { result ≡ class_of self }
    {
        match self {
            Kind::Program => Class::Other,
            Kind::Variable | Kind::Function => Class::Declaration,
            Kind::Parameter => Class::Parameter,
            Kind::Body => Class::Body,
            Kind::Assignment | Kind::CallStatement | Kind::IfStatement => Class::Statement,
            Kind::Block => Class::Block,
            Kind::Integer | Kind::Truth | Kind::Read => Class::Expression,
            Kind::Not | Kind::Operator | Kind::IfExpression | Kind::Call => Class::Expression,
            Kind::ValueBlock => Class::ValueBlock,
        }
    }

    fn limits(self) -> Limits
        ensures { result ≡ limits_of self }
    {
        match self {
            Kind::Program | Kind::Body | Kind::IfStatement | Kind::Block => Limits::new(0, 0, 0),
            Kind::Not | Kind::IfExpression | Kind::ValueBlock => Limits::new(0, 0, 0),
            Kind::Variable | Kind::Parameter => Limits::new(1, 2, NAME),
            Kind::Function => Limits::new(0, 2, NAME),
            Kind::Assignment | Kind::CallStatement => Limits::new(0, 0, NAME),
            Kind::Read | Kind::Call => Limits::new(0, 0, NAME),
            Kind::Integer => Limits::new(0, 0, GREATEST),
            Kind::Truth => Limits::new(0, 0, 1),
            Kind::Operator => Limits::new(1, 11, 0),
        }
    }

    // Whether a record of this kind may have this sub and this value.
    pub(crate) fn admits(self, sub: u32, value: u32) -> bool
        ensures { result ≡ within (limits_of self) sub value }
    {
        self.limits().admit(sub, value)
    }

    // The children that a node of this kind has.
    pub(crate) fn children(self) -> Form
        ensures { result ≡ form_of self }
    {
        match self {
            Kind::Program => Form::Whole,
            Kind::Variable | Kind::Parameter => Form::Nothing,
            Kind::Function => Form::Parameters,
            Kind::Body => Form::Declarations,
            Kind::Assignment | Kind::Not => Form::OneExpression,
            Kind::CallStatement | Kind::Call => Form::Expressions,
            Kind::IfStatement => Form::Condition,
            Kind::Block => Form::SomeStatements,
            Kind::Integer | Kind::Truth | Kind::Read => Form::Nothing,
            Kind::Operator => Form::TwoExpressions,
            Kind::IfExpression => Form::Choice,
            Kind::ValueBlock => Form::Value,
        }
    }
}

impl Form {
    // What is to come after one more child, if that child may come here.
    pub(crate) fn after(self, child: Class) -> Option<Form>
        ensures { result ≡ after self child }
    {
        match (self, child) {
            (Form::OneExpression, Class::Expression) => Some(Form::Nothing),
            (Form::TwoExpressions, Class::Expression) => Some(Form::OneExpression),
            (Form::Expressions, Class::Expression) => Some(Form::Expressions),
            (Form::Whole, Class::Expression) => Some(Form::Nothing),
            (Form::Whole, Class::Declaration) => Some(Form::Declarations),
            (Form::Declarations, Class::Declaration) => Some(Form::Declarations),
            (Form::Declarations | Form::Statements, Class::Statement) => Some(Form::Statements),
            (Form::Declarations | Form::Statements, Class::Expression) => Some(Form::Nothing),
            (Form::Parameters, Class::Parameter) => Some(Form::Parameters),
            (Form::Parameters, Class::Body) => Some(Form::Nothing),
            (Form::Condition, Class::Expression) => Some(Form::FirstBlock),
            (Form::FirstBlock, Class::Block) => Some(Form::SecondBlock),
            (Form::SecondBlock, Class::Block) => Some(Form::Nothing),
            (Form::SomeStatements | Form::OnlyStatements, Class::Statement) => Some(
                Form::OnlyStatements,
            ),
            (Form::Choice, Class::Expression) => Some(Form::TwoValueBlocks),
            (Form::TwoValueBlocks, Class::ValueBlock) => Some(Form::OneValueBlock),
            (Form::OneValueBlock, Class::ValueBlock) => Some(Form::Nothing),
            (Form::Value, Class::Statement) => Some(Form::Value),
            (Form::Value, Class::Expression) => Some(Form::Nothing),
            _ => None,
        }
    }

    // Whether no more need come.
    pub(crate) fn is_complete(self) -> bool
        ensures { result ≡ complete self }
    {
        matches!(
            self,
            Form::Nothing
                | Form::Expressions
                | Form::Declarations
                | Form::Statements
                | Form::SecondBlock
                | Form::OnlyStatements
        )
    }
}
