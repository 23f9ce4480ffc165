// Expressions read from a line of source and valued.
//
// expression = ["-"] product { ("+" | "-") product }
// product = factor { "*" factor }
// factor = number | label | "." | "(" expression ")"
#![tactic(auto)]

ghost use Rattle.std.specs.Prelude.{◌≡◌};
ghost use Rattle.grammar.specs.Laws.Runs.{name_at};
ghost use Rattle.tokens.specs.Kinds.{kind_number};
ghost use Rattle.labels.specs.Locating.{located};
ghost use Rattle.expressions.specs.Readers.{is_sign, by_sign, named, closed, factor_at, product_at, first_at, expression_at};

use answers::Refusal;
use labels::Labels;
use tokens::Kind;
use values::Value;

/// What was read: the place behind it, and its value.
#[derive(Clone, Copy, Debug, PartialEq, Eq)]
pub struct Read {
    pub next: usize,
    pub value: Result<Value, Refusal>,
}

/// Why reading stopped, and the place behind the token at fault.
#[derive(Clone, Copy, Debug, PartialEq, Eq)]
pub struct Stop {
    pub refusal: Refusal,
    pub next: usize,
}

impl From<Stop> for Refusal {
    ghost from_gives = { λ stop refusal. refusal ≡ stop.refusal };

    fn from(stop: Stop) -> Refusal {
        stop.refusal
    }
}

/// What the expressions of a line are read with: the text and its labels, and the line's own address.
#[derive(Clone, Copy)]
pub struct Line<'a> {
    pub labels: Labels<'a>,
    pub dot: u64,
}

// Whether a kind of token is a sign between products.
fn is_sign(kind: Kind) -> bool
    ensures { result ≡ is_sign (kind_number kind) }
{
    matches!(kind, Kind::Plus | Kind::Minus)
}

// The sum of two values, or the difference, by the sign between them.
fn summed(
    sign: Kind,
    v: Result<Value, Refusal>,
    w: Result<Value, Refusal>,
) -> Result<Value, Refusal>
    ensures { result ≡ by_sign (kind_number sign) v w }
{
    match sign {
        Kind::Minus => values::minus(v, w),
        _ => values::plus(v, w),
    }
}

impl Line<'_> {
    // The value of the label whose name stands at a place.
    fn label(&self, place: usize) -> Result<Value, Refusal>
        ensures { result ≡ named (located self.now.labels.text.now self.now.labels.table.now self.now.labels.complete (name_at self.now.labels.text.now place)) }
    {
        match self.labels.locate(place) {
            Some(definition) => values::number(definition.words),
            None => values::unknown(),
        }
    }

    // What was read in brackets, and the closing bracket.
    fn closed(&self, inside: Read) -> Result<Read, Stop>
        ensures { result ≡ closed self.now.labels.text.now (Ok inside) }
    {
        let t = tokens::token(self.labels.text, inside.next);
        let next = t.next;
        if t.kind != Kind::Right {
            return Err(Stop {
                refusal: Refusal::NoLine,
                next,
            });
        }
        Ok(Read { next, ..inside })
    }

    // A factor; `depth` more brackets may be opened.
    #[cycle(expression_factor_first_product)]
    fn factor(&self, at: usize, depth: u32) -> Result<Read, Stop>
        ensures { result ≡ factor_at self.now.labels.text.now (located self.now.labels.text.now self.now.labels.table.now self.now.labels.complete) self.now.dot depth at }
    {
        let t = tokens::token(self.labels.text, at);
        let next = t.next;
        match t.kind {
            Kind::Number => Ok(Read {
                next,
                value: values::number(t.value),
            }),
            Kind::Name => Ok(Read {
                next,
                value: self.label(t.place),
            }),
            Kind::Dot => Ok(Read {
                next,
                value: values::number(self.dot),
            }),
            Kind::Left if depth == 0 => Err(Stop {
                refusal: Refusal::TooDeep,
                next,
            }),
            Kind::Left => {
                let inside = self.expression(next, depth - 1)?;
                self.closed(inside)
            }
            _ => Err(Stop {
                refusal: Refusal::NoLine,
                next,
            }),
        }
    }

    // Factors with a star between them.
    #[cycle(expression_factor_first_product)]
    fn product(&self, at: usize, depth: u32) -> Result<Read, Stop>
        ensures { result ≡ product_at self.now.labels.text.now (located self.now.labels.text.now self.now.labels.table.now self.now.labels.complete) self.now.dot depth at }
    {
        let mut read = self.factor(at, depth)?;
        loop {
            let t = tokens::token(self.labels.text, read.next);
            if t.kind != Kind::Star {
                return Ok(read);
            }
            let factor = self.factor(t.next, depth)?;
            read = Read {
                next: factor.next,
                value: values::times(read.value, factor.value),
            };
        }
    }

    // The first product, which may have a minus sign.
    #[cycle(expression_factor_first_product)]
    fn first(&self, at: usize, depth: u32) -> Result<Read, Stop>
        ensures { result ≡ first_at self.now.labels.text.now (located self.now.labels.text.now self.now.labels.table.now self.now.labels.complete) self.now.dot depth at }
    {
        let t = tokens::token(self.labels.text, at);
        if t.kind != Kind::Minus {
            return self.product(at, depth);
        }
        let product = self.product(t.next, depth)?;
        Ok(Read {
            value: values::negated(product.value),
            ..product
        })
    }

    /// The expression from `at` on; `depth` brackets may be opened.
    #[cycle(expression_factor_first_product)]
    pub fn expression(&self, at: usize, depth: u32) -> Result<Read, Stop>
        ensures { result ≡ expression_at self.now.labels.text.now (located self.now.labels.text.now self.now.labels.table.now self.now.labels.complete) self.now.dot depth at }
    {
        let mut read = self.first(at, depth)?;
        loop {
            let t = tokens::token(self.labels.text, read.next);
            if !is_sign(t.kind) {
                return Ok(read);
            }
            let product = self.product(t.next, depth)?;
            read = Read {
                next: product.next,
                value: summed(t.kind, read.value, product.value),
            };
        }
    }
}
