//! Expressions in infix form, as they are written in a listing. The functions whose operands are still being
//! read are on an explicit stack, so nested expressions need no nested calls.

ghost use Rattle.std.specs.Prelude.{◌≡◌, ◌≤◌, ◌<◌, ◌+◌, ◌∷◌, ◌++◌, [], ℕ, List, true, length, IfOk, OnOk, IfSome, None};
ghost use Rattle.mufom_expr.specs.declared.token.Token.{Token};
ghost use Rattle.mufom_expr.specs.Tree.{Tree, TwoOperands, function_of_two};
ghost use Rattle.mufom_expr.specs.Terms.{FindsTooFew};
ghost use Rattle.mufom_expr.specs.InfixText.{middle_text};
ghost use Rattle.mufom_build_text.specs.Pieces.{Piece, words, infix_pieces, value_pieces};
ghost use Rattle.mufom_build_text.specs.Reads.{Place};
ghost use Rattle.mufom_build_text.specs.Errors.{IsSound};
ghost use Rattle.mufom_build_text.specs.Loosely.{Goes, ReadsLoosely, NoFigure};
ghost use Rattle.mufom_build_text.specs.Infix.{frame_by, operator_by, letter_by, byte_at, is_first, has_operator, FitsMiddle, frame_text};
ghost use Rattle.mufom_build_text.specs.Infix.{frame_before, letter_before, Tells, Keeps, middle_of};
ghost use Rattle.mufom_build_text.specs.Infix.{IsLeaf, IsBefore, IsBehind, IsBetween, IsClosed, IsWhole};

use crate::cursor::{Cursor, after_spaces};
use mufom_expr::{
    Builder, ExprFault, Function, Letter, Postfix, Token, infix_middle, infix_opening, letter_name,
};
use mufom_numbers::NoMemory;
use mufom_refusals::BuildReason;
use std::alloc::Global;

/// What comes between the two operands of a function.
#[derive(Clone, Copy, Debug)]
enum Middle {
    /// An operator, from which the function is known.
    Operator,
    /// The comma of this function.
    Comma(Function),
}

/// A function whose operands are being read, known by what follows the next one.
#[derive(Clone, Copy, Debug)]
enum Frame {
    /// The next operand is the first of two.
    First(Middle),
    /// The next operand is the last of this function.
    Last(Function),
}

/// An expression that is being read.
#[derive(Drop)]
struct Infix {
    /// The functions whose operands are being read, the innermost last.
    frames: Vec<Frame>,
    /// The first 255 tokens of the operands that are read.
    tokens: Builder,
    /// Whether there are more than 255 tokens.
    is_long: bool,
}

// The frame of the function whose opening text begins this text. Its first two bytes tell which that is.
fn frame_by(text: &[u8]) -> Option<Frame>
    ensures exact { result ≡ frame_by (byte_at text.now 0) (byte_at text.now 1) }
    ensures first { IfSome result (λ frame. is_first frame ≡ true) }
{
    match text {
        [b'(', ..] => Some(Frame::First(Middle::Operator)),
        [b'a', b'b', ..] => Some(Frame::Last(Function::Abs)),
        [b'a', b'n', ..] => Some(Frame::First(Middle::Comma(Function::And))),
        [b'm', b'a', ..] => Some(Frame::First(Middle::Comma(Function::Max))),
        [b'm', b'i', ..] => Some(Frame::First(Middle::Comma(Function::Min))),
        [b'm', b'o', ..] => Some(Frame::First(Middle::Comma(Function::Mod))),
        [b'n', ..] => Some(Frame::Last(Function::Neg)),
        [b'o', ..] => Some(Frame::First(Middle::Comma(Function::Or))),
        [b'x', ..] => Some(Frame::First(Middle::Comma(Function::Xor))),
        _ => None,
    }
}

// The frame of the function that begins at the cursor, if one does.
fn opened(cursor: &Cursor) -> Option<Frame>
    ensures tells { Tells result cursor.now }
    ensures first { IfSome result (λ frame. is_first frame ≡ true) }
{
    frame_by(cursor.rest())
}

// The text before the operands of a function.
fn opening(frame: Frame) -> &'static str
    ensures { result.now ≡ frame_text frame }
{
    match frame {
        Frame::First(Middle::Operator) => "(",
        Frame::First(Middle::Comma(function)) => infix_opening(function),
        Frame::Last(function) => infix_opening(function),
    }
}

// The function whose operator begins the text. If the text begins with no operator, `Plus`: reading its
// operator then fails.
fn operator(text: &[u8]) -> Function
    ensures exact { result ≡ operator_by (byte_at text.now 0) (byte_at text.now 1) }
    ensures has { has_operator result ≡ true }
{
    match text {
        [b'-', ..] => Function::Minus,
        [b'/', ..] => Function::Divide,
        [b'*', ..] => Function::Times,
        [b'<', b'>', ..] => Function::Unequal,
        [b'<', ..] => Function::Less,
        [b'>', ..] => Function::Greater,
        [b'=', ..] => Function::Equal,
        _ => Function::Plus,
    }
}

// The function that comes next between two operands, if `middle` follows the first.
fn function_of(cursor: &Cursor, middle: Middle) -> Function
    ensures fits { FitsMiddle middle result }
    ensures tells { (g : TwoOperands) (more : List Piece) → middle_of g ≡ middle
        → Goes (words (middle_text (function_of_two g)) ++ more) cursor.now → function_of_two g ≡ result }
{
    match middle {
        Middle::Operator => operator(after_spaces(cursor.rest())),
        Middle::Comma(function) => function,
    }
}

// The letter of the variable that begins with the first byte of the text, if one does.
fn letter_by(text: &[u8]) -> Option<Letter>
    ensures { result ≡ letter_by (byte_at text.now 0) }
{
    match text {
        [b'I', ..] => Some(Letter::I),
        [b'L', ..] => Some(Letter::L),
        [b'P', ..] => Some(Letter::P),
        [b'R', ..] => Some(Letter::R),
        [b'S', ..] => Some(Letter::S),
        [b'X', ..] => Some(Letter::X),
        _ => None,
    }
}

// The letter of the variable that comes next, if one does.
fn letter(cursor: &Cursor) -> Option<Letter>
    ensures { (t : Tree) (more : List Piece) → Goes (infix_pieces t ++ more) cursor.now → frame_before t ≡ None
        → letter_before t ≡ result }
{
    letter_by(cursor.rest())
}

// Reads a number or a variable.
fn leaf(cursor: &mut Cursor) -> Token
    ensures reads { Tells None cursor.old → IsLeaf cursor.old cursor.new result }
    ensures within { length cursor.new.rest ≤ length cursor.old.rest }
    ensures shorter { IsSound cursor.new → length cursor.new.rest < length cursor.old.rest }
{
    let Some(letter) = letter(cursor) else {
        return Token::Number(cursor.number());
    };
    cursor.words(letter_name(letter).as_bytes());
    Token::Var(letter, cursor.place())
}

impl Infix {
    // Nothing is read yet.
    fn new(alloc: Global) -> Infix
        ensures { (start : Place) → IsBefore start start result }
    {
        Infix {
            frames: Vec::new(alloc),
            tokens: Builder::new(alloc),
            is_long: false,
        }
    }

    // Adds a token. Of a long expression only the first 255 tokens are kept.
    fn add(&mut self, token: Token) -> Result<(), NoMemory>
        ensures frames { self.new.frames.items ≡ self.old.frames.items }
        ensures keeps { (all : List Token) → Keeps all self.old → (FindsTooFew all token → ⊥) → OnOk result (Keeps (all ++ token ∷ []) self.new) }
    {
        match self.tokens.push(token) {
            Ok(()) => Ok(()),
            Err(fault) => match fault {
                ExprFault::NoMemory => Err(NoMemory),
                // Each function that is added has its operands before it, so this is a 256th token.
                _ => {
                    self.is_long = true;
                    Ok(())
                }
            },
        }
    }

    // Reads all opening texts before the next number or variable.
    fn open(&mut self, cursor: &mut Cursor) -> Result<(), NoMemory>
        ensures reads { (start : Place) → IsBefore start cursor.old self.old → OnOk result (IsBefore start cursor.new self.new) }
        ensures ends { OnOk result (Tells None cursor.new) }
        ensures within { OnOk result (length cursor.new.rest ≤ length cursor.old.rest) }
    {
        while let Some(frame) = opened(cursor) {
            cursor.words(opening(frame).as_bytes());
            self.frames.push(frame)?;
            if cursor.is_bad() {
                return Ok(());
            }
        }
        Ok(())
    }

    // Reads the next number or variable, with the opening texts before it.
    fn operand(&mut self, cursor: &mut Cursor) -> Result<(), NoMemory>
        ensures reads { (start : Place) → IsBefore start cursor.old self.old → OnOk result (IsBehind start cursor.new self.new) }
        ensures within { OnOk result (length cursor.new.rest ≤ length cursor.old.rest) }
        ensures shorter { OnOk result (IsSound cursor.new → length cursor.new.rest < length cursor.old.rest) }
    {
        self.open(cursor)?;
        self.add(leaf(cursor))
    }

    // Reads the closing brackets of the functions whose last operand has ended. Returns what follows the
    // first operand of the next function, if there is one.
    fn close(&mut self, cursor: &mut Cursor) -> Result<Option<Middle>, NoMemory>
        ensures reads { (start : Place) → IsBehind start cursor.old self.old → IfOk result (λ middle. IsClosed middle start cursor.new self.new) }
        ensures sound { OnOk result (IsSound cursor.new → IsSound cursor.old) }
        ensures within { OnOk result (length cursor.new.rest ≤ length cursor.old.rest) }
    {
        while let Some(frame) = self.frames.pop() {
            let function = match frame {
                Frame::First(middle) => return Ok(Some(middle)),
                Frame::Last(function) => function,
            };
            cursor.words(b")");
            self.add(Token::Fun(function))?;
        }
        Ok(None)
    }

    // Reads what comes between the two operands of a function.
    fn pass_middle(&mut self, cursor: &mut Cursor, middle: Middle) -> Result<(), NoMemory>
        ensures reads { (start : Place) → IsBetween middle start cursor.old self.old → OnOk result (IsBefore start cursor.new self.new) }
        ensures within { OnOk result (length cursor.new.rest ≤ length cursor.old.rest) }
    {
        let function = function_of(cursor, middle);
        cursor.words(infix_middle(function).as_bytes());
        self.frames.push(Frame::Last(function))?;
        Ok(())
    }

    // Reads an expression, up to its end or to where a piece of it is missing.
    fn whole(&mut self, cursor: &mut Cursor) -> Result<(), NoMemory>
        ensures reads { (start : Place) → IsBefore start cursor.old self.old → OnOk result (IsWhole start cursor.new self.new) }
        ensures within { OnOk result (length cursor.new.rest ≤ length cursor.old.rest) }
        ensures shorter { OnOk result (IsSound cursor.new → length cursor.new.rest < length cursor.old.rest) }
    {
        self.operand(cursor)?;
        while let Some(middle) = self.close(cursor)? {
            self.pass_middle(cursor, middle)?;
            self.operand(cursor)?;
            if cursor.is_bad() {
                return Ok(());
            }
        }
        Ok(())
    }
}

impl<'a> Cursor<'a> {
    /// Reads an expression in infix form. Notes `TooLong` at its first byte if it has more than 255 tokens.
    /// If the line has an error, the result may be another expression.
    pub fn value(&mut self, alloc: Global) -> Result<Postfix, NoMemory>
        ensures reads { IfOk result (λ p. ReadsLoosely value_pieces NoFigure p self.old self.new) }
        ensures within { OnOk result (length self.new.rest ≤ length self.old.rest) }
        ensures shorter { OnOk result (IsSound self.new → length self.new.rest < length self.old.rest) }
    {
        let column = self.column();
        let mut infix = Infix::new(alloc);
        infix.whole(self)?;
        if self.is_bad() {
            return Postfix::constant(alloc, 0);
        }
        let Infix {
            frames: _,
            tokens,
            is_long,
        } = infix;
        if is_long {
            self.note(column, BuildReason::TooLong);
            return Postfix::constant(alloc, 0);
        }
        match tokens.finish() {
            Ok(value) => Ok(value),
            // This cannot happen: the tokens are those of an expression.
            Err(_) => Postfix::constant(alloc, 0),
        }
    }
}
