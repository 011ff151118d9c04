//! Builds one of the generated modules, and the plan for all of them.

ghost use Rattle.std.specs.Prelude.{◌≡◌, ◌+◌, ◌<◌, ◌^◌, ◌==◌, ◌∷◌, [], ◌++◌, ◌%◌, length, IfOk, OnOk};
ghost use Rattle.mufom_expr.specs.Terms.{FindsTooFew};
ghost use Rattle.mufom_loads.specs.declared.load.Item.TheVariants.{Literal, Field};
ghost use Rattle.mufom_expr.specs.declared.token.FieldKind.TheVariants.{Either};
ghost use Rattle.mufom_module.specs.declared.module.Order.TheVariants.{Most};
ghost use Rattle.mufom_module.specs.Bare.{bare_parts};
ghost use Rattle.mufom_numbers.specs.declared.limits.TheConstants.{MOST_MODULES};
ghost use Rattle.mufom_make.specs.Generated.{code_section, entry_at, loads_at, made_plan, module_at, name_at, next_value, references_at};

use arrayvec::ArrayString;
use itoa::Buffer;
use mufom_expr::{Builder, ExprFault, FieldKind, Function, Letter, Postfix, Token};
use mufom_loads::{Item, Load};
use mufom_module::{Module, Order, Parts};
use mufom_names::{Public, Reference};
use mufom_numbers::{Bytes, List, NoMemory};
use mufom_plan::{Plan, Region};
use mufom_sections::{Purpose, Section};
use std::alloc::Global;

// The size of a module's section, in addressable units.
const SECTION_SIZE: u64 = 16;

// The offset of a module's public in its section, in addressable units.
const ENTRY_OFFSET: u64 = 4;

// The alignment of a section, in addressable units.
const SECTION_ALIGNMENT: u64 = 4;

// The number of times that a module loads the lowest byte of its number and a byte 0.
const REPEAT_COUNT: u64 = 2;

// The number of loads of a module.
const LOAD_COUNT: usize = 5;

// The length of an address, in addressable units.
const ADDRESS_SIZE: u8 = 4;

// The base of the region in which all sections are placed.
const FIRST_BASE: u64 = 4096;

// The name that consists of a letter and a number in decimal.
fn name_at(alloc: Global, letter: &str, number: u32) -> Result<Bytes, NoMemory>
    requires { length letter.now ≡ 1 }
    ensures { IfOk result (λ name. name ≡ name_at letter.now number) }
{
    let mut digits = Buffer::new();
    let mut name: ArrayString<16> = ArrayString::new();
    name.push_str(letter);
    name.push_str(digits.format(number));
    Bytes::from_slice(alloc, name.as_bytes())
}

// The one section of a module.
fn code_section(alloc: Global) -> Result<Section, NoMemory>
    ensures { IfOk result (λ section. section ≡ code_section) }
{
    Ok(Section {
        name: Bytes::from_slice(alloc, b"code")?,
        absolute: false,
        purpose: Some(Purpose::Code),
        size: SECTION_SIZE,
        align: SECTION_ALIGNMENT,
        base: None,
    })
}

// Adds a token whose operands are there, to fewer than 255 tokens.
fn add(builder: &mut Builder, token: Token) -> Result<(), NoMemory>
    requires room { length builder.old < 255 }
    requires found { FindsTooFew builder.old token → ⊥ }
    ensures { OnOk result (builder.new ≡ builder.old ++ token ∷ []) }
{
    match builder.push(token) {
        Ok(()) => Ok(()),
        Err(ExprFault::NoMemory) => Err(NoMemory),
        Err(_) => unreachable!(),
    }
}

// The address of the public of a module.
fn entry_value(alloc: Global) -> Result<Postfix, NoMemory>
    ensures { IfOk result (λ value. value ≡ (entry_at 0).value) }
{
    let mut builder = Builder::with_capacity(alloc, 3)?;
    add(&mut builder, Token::Var(Letter::R, 0))?;
    add(&mut builder, Token::Number(ENTRY_OFFSET))?;
    add(&mut builder, Token::Fun(Function::Plus))?;
    match builder.finish() {
        Ok(value) => Ok(value),
        Err(_) => unreachable!(),
    }
}

// The public of the module with this number.
fn entry_at(alloc: Global, number: u32) -> Result<Public, NoMemory>
    ensures { IfOk result (λ entry. entry ≡ entry_at number) }
{
    Ok(Public {
        name: name_at(alloc, "f", number)?,
        value: entry_value(alloc)?,
        notes: List::new(alloc),
    })
}

// The references of the module with this number: one to the public of the next module; none in the last
// module.
fn references_at(alloc: Global, last: bool, number: u32) -> Result<List<Reference>, NoMemory>
    requires { number < 2 ^ 31 }
    ensures { IfOk result (λ references. references ≡ references_at last number) }
{
    if last {
        return Ok(List::new(alloc));
    }
    let next = Reference {
        name: name_at(alloc, "f", number + 1)?,
        weak: None,
        notes: List::new(alloc),
    };
    List::single(alloc, next)
}

// The address of the public of the next module; 0 in the last module.
fn next_value(last: bool) -> Postfix
    ensures { result ≡ next_value last }
{
    Postfix::single(if last {
        Token::Number(0)
    } else {
        Token::Var(Letter::X, 0)
    })
}

// A load of the value of an expression, as an address.
fn address_load(value: Postfix) -> Load
    ensures { result ≡ Load.One (Field Either 4 value) }
{
    Load::One(Item::Field {
        kind: FieldKind::Either,
        value,
        size: ADDRESS_SIZE,
    })
}

// The lowest byte of a number and a byte 0, as the items of a repeat.
fn low_bytes(alloc: Global, number: u32) -> Result<List<Item>, NoMemory>
    ensures { IfOk result (λ items. items ≡ Literal (number % 256 ∷ 0 ∷ []) ∷ []) }
{
    let bytes = Bytes::from_slice(alloc, &[(number % 256) as u8, 0])?;
    List::single(alloc, Item::Literal(bytes))
}

// The loads of the module with this number.
fn loads_at(alloc: Global, last: bool, number: u32) -> Result<List<Load>, NoMemory>
    ensures { IfOk result (λ loads. loads ≡ loads_at last number) }
{
    let mut loads = List::with_capacity(alloc, LOAD_COUNT)?;
    loads.push(Load::SetSection(0))?;
    loads.push(address_load(next_value(last)))?;
    let own = Bytes::from_slice(alloc, &number.to_be_bytes())?;
    loads.push(Load::One(Item::Literal(own)))?;
    loads.push(address_load(Postfix::single(Token::Var(Letter::P, 0))))?;
    loads.push(Load::Repeat {
        count: REPEAT_COUNT,
        items: low_bytes(alloc, number)?,
    })?;
    Ok(loads)
}

// Fills empty parts with the entries of the module with this number.
fn state_module(alloc: Global, parts: &mut Parts, last: bool, number: u32) -> Result<(), NoMemory>
    requires number { number < 2 ^ 31 }
    requires bare { parts.old ≡ bare_parts 4 Most }
    ensures { OnOk result (parts.new ≡ module_at last number) }
{
    parts.processor = Bytes::from_slice(alloc, b"MADE")?;
    parts.name = name_at(alloc, "m", number)?;
    parts.sections = List::single(alloc, code_section(alloc)?)?;
    parts.names.publics = List::single(alloc, entry_at(alloc, number)?)?;
    parts.names.references = references_at(alloc, last, number)?;
    parts.loads = loads_at(alloc, last, number)?;
    Ok(())
}

// The parts of the module with this number.
fn parts_at(alloc: Global, last: bool, number: u32) -> Result<Parts, NoMemory>
    requires { number < 2 ^ 31 }
    ensures { IfOk result (λ parts. parts ≡ module_at last number) }
{
    let mut parts = Parts::new(alloc, ADDRESS_SIZE, Order::Most);
    state_module(alloc, &mut parts, last, number)?;
    Ok(parts)
}

/// The module with this number of `count` generated modules.
pub(crate) fn module_at(alloc: Global, count: u32, number: u32) -> Result<Module, NoMemory>
    requires { number < MOST_MODULES }
    ensures { IfOk result (λ m. m ≡ module_at (number + 1 == count) number) }
{
    let parts = parts_at(alloc, number + 1 == count, number)?;
    Ok(Module::sound(parts))
}

// The region of all sections.
fn region(alloc: Global, count: u32) -> Result<Region, NoMemory>
    ensures { IfOk result (λ region. region ∷ [] ≡ (made_plan count).regions) }
{
    Ok(Region {
        name: Bytes::from_slice(alloc, b"all")?,
        base: FIRST_BASE,
        size: SECTION_SIZE * count as u64,
        sections: List::single(alloc, Bytes::from_slice(alloc, b"*")?)?,
        common: false,
        load: None,
    })
}

/// The plan for `count` generated modules: one region, which takes all sections.
pub(crate) fn made_plan(alloc: Global, count: u32) -> Result<Plan, NoMemory>
    ensures { IfOk result (λ plan. plan ≡ made_plan count) }
{
    Ok(Plan {
        regions: List::single(alloc, region(alloc, count)?)?,
        symbols: List::new(alloc),
        keep: List::new(alloc),
    })
}
