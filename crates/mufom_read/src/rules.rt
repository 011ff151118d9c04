//! The rules that a complete record must obey, given the records before it.

ghost use Rattle.std.specs.Prelude.{◌≡◌, ◌∷◌, [], ◌&&◌, not, option_map, option_to_list, List, None, Some, if◌then◌else◌};
ghost use Rattle.std.specs.List.{list_any, list_all};
ghost use Rattle.mufom_expr.specs.Mentions.{variables_in};
ghost use Rattle.mufom_expr.specs.Value.{variables_of};
ghost use Rattle.mufom_module.specs.Contents.{any_of};
ghost use Rattle.mufom_module.specs.Defects as defects;
ghost use Rattle.mufom_module.specs.SpelledRecords as records;
ghost use Rattle.mufom_module.specs.RecordParts as parts;
ghost use Rattle.mufom_judging.specs.Prefixes.{Step, records_of, offset_records_of};
ghost use Rattle.mufom_judging.specs.Faults as faults;
ghost use Rattle.mufom_read.specs.DebugSoFar.{stacked};
ghost use Rattle.mufom_read.specs.Kept.{tables_of, declares_again_in, states_again_in, entries_in, is_declared_in, is_unknown};
ghost use Rattle.mufom_read.specs.Kept.{names_unknown_entry_in, names_unknown_in, has_no_section_in, counter_allowed_in, misplaces_counter_in};
ghost use Rattle.mufom_read.specs.Kept.{rule_broken_in};

use crate::debug::{OpenBlock, ends_badly, is_too_deep};
use crate::tables::{Tables, entries, has};
use mufom_expr::{Letter, Postfix, Token};
use mufom_numbers::Reason;
use mufom_numbers::limits::MOST_ALIGNMENT;
use mufom_records::{BlockTail, Record};

// ---- indexes

// Whether the record declares an index that is already declared for its kind of entry.
fn declares_again(tables: &Tables, record: &Record) -> bool
    ensures { result ≡ declares_again_in tables.now «record».now }
{
    match record {
        Record::SectionType(i, ..) => has(&tables.sections, *i),
        Record::PublicName(i, _) => has(&tables.publics, *i),
        Record::ReferenceName(i, _) => has(&tables.references, *i),
        Record::DebugName(i, _) => has(&tables.debug_names, *i),
        _ => false,
    }
}

// Whether the block is of kind 11 and its section is not declared.
fn names_unknown_section(tables: &Tables, block: &BlockTail) -> bool
    ensures { result ≡ not (list_all (is_declared_in tables.now) (option_to_list (records.section_of_block block.now))) }
{
    match block {
        BlockTail::Section { section, .. } => !has(&tables.sections, *section),
        _ => false,
    }
}

// Whether the record refers to an index, other than in its expression, that is not declared.
fn names_unknown_entry(tables: &Tables, record: &Record) -> bool
    ensures { result ≡ names_unknown_entry_in tables.now «record».now }
{
    match record {
        Record::Alignment(i, ..) => !has(&tables.sections, *i),
        Record::SectionSize(i, _) => !has(&tables.sections, *i),
        Record::SectionBase(i, _) => !has(&tables.sections, *i),
        Record::PublicValue(i, _) => !has(&tables.publics, *i),
        Record::PublicNote(i, ..) => !has(&tables.publics, *i),
        Record::WeakReference(i, ..) => !has(&tables.references, *i),
        Record::ReferenceNote(i, ..) => !has(&tables.references, *i),
        Record::BlockBegin(_, _, _, block) => names_unknown_section(tables, block),
        Record::DebugValue(i, _) => !has(&tables.debug_names, *i),
        Record::DebugNote(i, ..) => !has(&tables.debug_names, *i),
        Record::SetSection(i) => !has(&tables.sections, *i),
        Record::SetPc(i, _) => !has(&tables.sections, *i),
        _ => false,
    }
}

// Whether the token is a variable whose index is not declared.
fn token_is_unknown(tables: &Tables, token: Token) -> bool
    ensures { result ≡ list_any (is_unknown tables.now) (variables_in (token ∷ [])) }
{
    match token {
        Token::Var(letter, index) => !has(entries(tables, letter), index),
        Token::Number(_) => false,
        Token::Fun(_) => false,
    }
}

// Whether any of the tokens is such a variable.
fn tokens_are_unknown(tables: &Tables, tokens: &[Token]) -> bool
    ensures { result ≡ list_any (λ t. list_any (is_unknown tables.now) (variables_in (t ∷ []))) tokens.now }
{
    tokens.iter().any(|token| token_is_unknown(tables, *token))
}

/// Whether the expression has a variable whose index is not declared.
pub(crate) fn has_unknown_variable(tables: &Tables, tree: &Postfix) -> bool
    ensures { result ≡ list_any (is_unknown tables.now) (variables_of tree.now) }
{
    tokens_are_unknown(tables, tree.tokens())
}

/// Whether the record states the value of a public. The variables of such a value may be declared later.
pub(crate) fn is_public_value(record: &Record) -> bool
    ensures { result ≡ records.is_public_value «record».now }
{
    matches!(record, Record::PublicValue(..))
}

// Whether the record's expression has such a variable, and is not the value of a public.
fn has_unknown_variable_now(tables: &Tables, record: &Record, tree: Option<&Postfix>) -> bool
    ensures { result ≡ (not (records.is_public_value «record».now) && any_of (λ e. list_any (is_unknown tables.now) (variables_of e))
        (option_map (λ t. t.now) tree.entry)) }
{
    match tree {
        None => false,
        Some(tree) => !is_public_value(record) && has_unknown_variable(tables, tree),
    }
}

// Whether the record refers to an index that is not declared, in its expression or outside it.
fn names_unknown(tables: &Tables, record: &Record, tree: Option<&Postfix>) -> bool
    ensures { result ≡ names_unknown_in tables.now «record».now (option_map (λ t. t.now) tree.entry) }
{
    names_unknown_entry(tables, record) || has_unknown_variable_now(tables, record, tree)
}

// Whether the record states again what may be stated only once.
fn states_again(tables: &Tables, record: &Record) -> bool
    ensures { result ≡ states_again_in tables.now «record».now }
{
    match record {
        Record::PublicValue(i, _) => has(&tables.values, *i),
        Record::WeakReference(i, ..) => has(&tables.weaknesses, *i),
        Record::Alignment(i, ..) => has(&tables.alignments, *i),
        Record::SectionSize(i, _) => has(&tables.sizes, *i),
        Record::SectionBase(i, _) => has(&tables.bases, *i),
        Record::Start(_) => tables.has_start,
        _ => false,
    }
}

// ---- the rest

// Whether the record states an alignment outside 1 to 2^31 MAUs.
fn has_bad_alignment(record: &Record) -> bool
    ensures { result ≡ faults.has_bad_alignment «record».now }
{
    match record {
        Record::Alignment(_, n, _) => *n == 0 || *n > MOST_ALIGNMENT,
        _ => false,
    }
}

// Whether the record is LD, LR or RE.
fn is_loading(record: &Record) -> bool
    ensures { result ≡ parts.is_loading «record».now }
{
    match record {
        Record::Constant(_) => true,
        Record::Relocate => true,
        Record::RepeatConstant(..) => true,
        Record::RepeatRelocate(_) => true,
        _ => false,
    }
}

// Whether the record loads something although there is no current section.
fn has_no_section(tables: &Tables, record: &Record) -> bool
    ensures { result ≡ has_no_section_in tables.now «record».now }
{
    is_loading(record) && tables.current.is_none()
}

// The section whose program counter the record's expression may use.
fn counter_allowed(tables: &Tables, record: &Record) -> Option<u32>
    ensures { result ≡ counter_allowed_in tables.now «record».now }
{
    match record {
        Record::SetPc(i, _) => Some(*i),
        Record::FieldItem(..) => tables.current,
        _ => None,
    }
}

// Whether the token is the program counter of a section other than the allowed one.
fn is_other_counter(allowed: Option<u32>, token: Token) -> bool
    ensures { result ≡ list_any (defects.is_other_counter allowed) (variables_in (token ∷ [])) }
{
    match token {
        Token::Var(Letter::P, section) => allowed != Some(section),
        _ => false,
    }
}

// Whether any of the tokens is such a program counter.
fn tokens_are_other_counters(allowed: Option<u32>, tokens: &[Token]) -> bool
    ensures { result ≡ list_any (λ t. list_any (defects.is_other_counter allowed) (variables_in (t ∷ []))) tokens.now }
{
    tokens.iter().any(|token| is_other_counter(allowed, *token))
}

// Whether the expression contains such a program counter.
fn has_other_counter(allowed: Option<u32>, tree: &Postfix) -> bool
    ensures { result ≡ defects.has_other_counter allowed tree.now }
{
    tokens_are_other_counters(allowed, tree.tokens())
}

// Whether the record's expression uses a program counter that it may not use.
fn misplaces_counter(tables: &Tables, record: &Record, tree: Option<&Postfix>) -> bool
    ensures { result ≡ misplaces_counter_in tables.now «record».now (option_map (λ t. t.now) tree.entry) }
{
    match tree {
        None => false,
        Some(tree) => has_other_counter(counter_allowed(tables, record), tree),
    }
}

// The reason, if the rule is broken.
fn broken_if(is_broken: bool, reason: Reason) -> Option<Reason>
    ensures { result ≡ (if is_broken then Some reason else None) }
{
    if is_broken { Some(reason) } else { None }
}

// The first rule that a record without an expression breaks. `blocks` are the open blocks.
fn first_broken_plainly(tables: &Tables, blocks: &[OpenBlock], record: &Record) -> Option<Reason>
    ensures { result ≡ rule_broken_in tables.now (stacked [] blocks.now) «record».now None }
{
    match record {
        Record::PublicName(i, _) => broken_if(has(&tables.publics, *i), Reason::DuplicateIndex),
        Record::ReferenceName(i, _) => {
            broken_if(has(&tables.references, *i), Reason::DuplicateIndex)
        }
        Record::DebugName(i, _) => broken_if(has(&tables.debug_names, *i), Reason::DuplicateIndex),
        Record::SetSection(i) => broken_if(!has(&tables.sections, *i), Reason::UnknownIndex),
        Record::Constant(_) => broken_if(tables.current.is_none(), Reason::NoSection),
        Record::Relocate => broken_if(tables.current.is_none(), Reason::NoSection),
        Record::RepeatConstant(..) => broken_if(tables.current.is_none(), Reason::NoSection),
        Record::RepeatRelocate(_) => broken_if(tables.current.is_none(), Reason::NoSection),
        Record::ConstantItem(_) => None,
        _ => first_of_all_broken(tables, blocks, record, None),
    }
}

// The first rule that a record with this expression breaks. `blocks` are the open blocks.
fn first_broken_with(
    tables: &Tables,
    blocks: &[OpenBlock],
    record: &Record,
    tree: &Postfix,
) -> Option<Reason>
    ensures { result ≡ rule_broken_in tables.now (stacked [] blocks.now) «record».now (Some tree.now) }
{
    match record {
        Record::PublicValue(i, _) => {
            if !has(&tables.publics, *i) {
                Some(Reason::UnknownIndex)
            } else if has(&tables.values, *i) {
                Some(Reason::DuplicateValue)
            } else {
                broken_if(has_other_counter(None, tree), Reason::BadP)
            }
        }
        Record::SetPc(i, _) => {
            if !has(&tables.sections, *i) || has_unknown_variable(tables, tree) {
                Some(Reason::UnknownIndex)
            } else {
                broken_if(has_other_counter(Some(*i), tree), Reason::BadP)
            }
        }
        Record::FieldItem(..) => {
            if has_unknown_variable(tables, tree) {
                Some(Reason::UnknownIndex)
            } else {
                broken_if(has_other_counter(tables.current, tree), Reason::BadP)
            }
        }
        _ => first_of_all_broken(tables, blocks, record, Some(tree)),
    }
}

// The first rule that a record breaks, by a shortcut for the most frequent records.
fn first_broken(
    tables: &Tables,
    blocks: &[OpenBlock],
    record: &Record,
    tree: Option<&Postfix>,
) -> Option<Reason>
    ensures { result ≡ rule_broken_in tables.now (stacked [] blocks.now) «record».now (option_map (λ t. t.now) tree.entry) }
{
    match tree {
        None => first_broken_plainly(tables, blocks, record),
        Some(tree) => first_broken_with(tables, blocks, record, tree),
    }
}

// The first rule that a record breaks, by testing all rules in turn.
fn first_of_all_broken(
    tables: &Tables,
    blocks: &[OpenBlock],
    record: &Record,
    tree: Option<&Postfix>,
) -> Option<Reason>
    ensures { result ≡ rule_broken_in tables.now (stacked [] blocks.now) «record».now (option_map (λ t. t.now) tree.entry) }
{
    if declares_again(tables, record) {
        Some(Reason::DuplicateIndex)
    } else if names_unknown(tables, record, tree) {
        Some(Reason::UnknownIndex)
    } else if states_again(tables, record) {
        Some(Reason::DuplicateValue)
    } else if has_bad_alignment(record) {
        Some(Reason::BadAlignment)
    } else if has_no_section(tables, record) {
        Some(Reason::NoSection)
    } else if misplaces_counter(tables, record, tree) {
        Some(Reason::BadP)
    } else if ends_badly(blocks, record) {
        Some(Reason::BlockNesting)
    } else if is_too_deep(blocks, record) {
        Some(Reason::Depth)
    } else {
        None
    }
}

/// The first rule that the record breaks, if any. `tables` and `blocks` are what the records before it declare and the
/// blocks that they leave open; `tree` is the record's expression.
pub(crate) fn rule_broken(
    tables: &Tables,
    blocks: &[OpenBlock],
    record: &Record,
    tree: Option<&Postfix>,
) -> Option<Reason>
    ensures { (prefix : List Step) (p : records.SpelledRecord) → tables.now ≡ tables_of (records_of prefix)
        → stacked [] blocks.now ≡ faults.open_blocks (offset_records_of prefix) → p.row ≡ «record».now
        → records.tree_of_record p ≡ option_map (λ t. t.now) tree.entry → result ≡ faults.rule_broken prefix p }
{
    first_broken(tables, blocks, record, tree)
}
