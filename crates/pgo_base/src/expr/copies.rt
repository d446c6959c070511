// Copies of expressions. Each call goes down to the height of the tree; lists are walked by loops.
ghost use Rattle.std.specs.Prelude.{◌≡◌, IfOk};
ghost use Rattle.pgo_base.specs.ExprView.{tree};

use crate::expr::{Arms, Binders, Expr, Exprs, Named, Sub, Update, Updates};
use crate::results::both;
use std::alloc::{AllocError, Global};

impl Expr {
    /// The same expression once more.
    #[cycle(copy)]
    pub fn copy(&self, alloc: Global) -> Result<Expr, AllocError>
        ensures { IfOk result (λ e. tree e ≡ tree self.now) }
    {
        match self {
            Expr::Name(x) => Ok(Expr::Name(x.copy(alloc)?)),
            Expr::Primed(x) => Ok(Expr::Primed(x.copy(alloc)?)),
            Expr::Number(n) => Ok(Expr::Number(*n)),
            Expr::Text(s) => Ok(Expr::Text(s.copy(alloc)?)),
            Expr::Truth(b) => Ok(Expr::Truth(*b)),
            Expr::At => Ok(Expr::At),
            Expr::Word(w) => Ok(Expr::Word(*w)),
            Expr::Prefix(o, a) => Ok(Expr::Prefix(*o, a.copy(alloc)?)),
            Expr::Infix(o, a, b) => {
                let (a, b) = both(a.copy(alloc), b.copy(alloc))?;
                Ok(Expr::Infix(*o, a, b))
            }
            Expr::Product(list) => Ok(Expr::Product(list.copy(alloc)?)),
            Expr::If(p, a, b) => {
                let (p, (a, b)) = both(p.copy(alloc), both(a.copy(alloc), b.copy(alloc)))?;
                Ok(Expr::If(p, a, b))
            }
            Expr::Case(arms) => Ok(Expr::Case(arms.copy(alloc)?)),
            Expr::CaseOther(arms, e) => {
                let (arms, e) = both(arms.copy(alloc), e.copy(alloc))?;
                Ok(Expr::CaseOther(arms, e))
            }
            Expr::Let(names, e) => {
                let (names, e) = both(names.copy(alloc), e.copy(alloc))?;
                Ok(Expr::Let(names, e))
            }
            Expr::Quantified(q, over, p) => {
                let (over, p) = both(over.copy(alloc), p.copy(alloc))?;
                Ok(Expr::Quantified(*q, over, p))
            }
            Expr::Choose(x, s, p) => {
                let (x, (s, p)) = both(x.copy(alloc), both(s.copy(alloc), p.copy(alloc)))?;
                Ok(Expr::Choose(x, s, p))
            }
            Expr::Tuple(list) => Ok(Expr::Tuple(list.copy(alloc)?)),
            Expr::SetOf(list) => Ok(Expr::SetOf(list.copy(alloc)?)),
            Expr::Filter(x, s, p) => {
                let (x, (s, p)) = both(x.copy(alloc), both(s.copy(alloc), p.copy(alloc)))?;
                Ok(Expr::Filter(x, s, p))
            }
            Expr::Image(e, x, s) => {
                let (e, (x, s)) = both(e.copy(alloc), both(x.copy(alloc), s.copy(alloc)))?;
                Ok(Expr::Image(e, x, s))
            }
            Expr::FunOf(over, e) => {
                let (over, e) = both(over.copy(alloc), e.copy(alloc))?;
                Ok(Expr::FunOf(over, e))
            }
            Expr::FunSet(s, t) => {
                let (s, t) = both(s.copy(alloc), t.copy(alloc))?;
                Ok(Expr::FunSet(s, t))
            }
            Expr::Record(fields) => Ok(Expr::Record(fields.copy(alloc)?)),
            Expr::RecordSet(fields) => Ok(Expr::RecordSet(fields.copy(alloc)?)),
            Expr::Except(f, updates) => {
                let (f, updates) = both(f.copy(alloc), updates.copy(alloc))?;
                Ok(Expr::Except(f, updates))
            }
            Expr::Index(f, keys) => {
                let (f, keys) = both(f.copy(alloc), keys.copy(alloc))?;
                Ok(Expr::Index(f, keys))
            }
            Expr::Field(r, x) => {
                let (r, x) = both(r.copy(alloc), x.copy(alloc))?;
                Ok(Expr::Field(r, x))
            }
            Expr::Call(x, args) => {
                let (x, args) = both(x.copy(alloc), args.copy(alloc))?;
                Ok(Expr::Call(x, args))
            }
            Expr::Unchanged(names) => Ok(Expr::Unchanged(names.copy(alloc)?)),
        }
    }
}

impl Sub {
    /// The same operand once more.
    #[cycle(copy)]
    pub fn copy(&self, alloc: Global) -> Result<Sub, AllocError>
        ensures { IfOk result (λ e. e ≡ self.now) }
    {
        Sub::new(alloc, self.expr.copy(alloc)?)
    }
}

impl Exprs {
    /// The same expressions once more.
    #[cycle(copy)]
    pub fn copy(&self, alloc: Global) -> Result<Exprs, AllocError>
        ensures { IfOk result (λ list. list ≡ self.now) }
    {
        let mut list = Vec::with_capacity(alloc, self.list.len())?;
        for item in &self.list {
            list.push(item.copy(alloc)?)?;
        }
        Ok(Exprs { list })
    }
}

impl Named {
    /// The same names with their expressions once more.
    #[cycle(copy)]
    pub fn copy(&self, alloc: Global) -> Result<Named, AllocError>
        ensures { IfOk result (λ list. list ≡ self.now) }
    {
        let mut list = Vec::with_capacity(alloc, self.list.len())?;
        for item in &self.list {
            list.push((item.0.copy(alloc)?, item.1.copy(alloc)?))?;
        }
        Ok(Named { list })
    }
}

impl Arms {
    /// The same arms once more.
    #[cycle(copy)]
    pub fn copy(&self, alloc: Global) -> Result<Arms, AllocError>
        ensures { IfOk result (λ list. list ≡ self.now) }
    {
        let mut list = Vec::with_capacity(alloc, self.list.len())?;
        for item in &self.list {
            let guard = Sub::new(alloc, item.0.copy(alloc)?)?;
            let value = item.1.copy(alloc)?;
            list.push((guard.into_expr(), value))?;
        }
        Ok(Arms { list })
    }
}

impl Binders {
    /// The same binders once more.
    #[cycle(copy)]
    pub fn copy(&self, alloc: Global) -> Result<Binders, AllocError>
        ensures { IfOk result (λ list. list ≡ self.now) }
    {
        let mut list = Vec::with_capacity(alloc, self.list.len())?;
        for item in &self.list {
            list.push((item.0.copy(alloc)?, item.1.copy(alloc)?))?;
        }
        Ok(Binders { list })
    }
}

impl Updates {
    /// The same changes once more.
    #[cycle(copy)]
    pub fn copy(&self, alloc: Global) -> Result<Updates, AllocError>
        ensures { IfOk result (λ list. list ≡ self.now) }
    {
        let mut list = Vec::with_capacity(alloc, self.list.len())?;
        for item in &self.list {
            let path = item.path.copy(alloc)?;
            let value = item.value.copy(alloc)?;
            list.push(Update { path, value })?;
        }
        Ok(Updates { list })
    }
}
