//! Copies of names, expressions and types.

use super::copies::{Copies, both, copy_all};
use crate::expression::{BaseType, Bounds, Creation, Expr, Init, Type, Value};
use crate::name::{Name, Path};
use std::alloc::AllocError;

impl Copies for Name {
    fn copied(&self) -> Result<Name, AllocError> {
        self.copy()
    }
}

impl Copies for Path {
    fn copied(&self) -> Result<Path, AllocError> {
        let (first, rest) = both(self.first.copied(), copy_all(&self.rest))?;
        Ok(Path { first, rest })
    }
}

impl Copies for Expr {
    fn copied(&self) -> Result<Expr, AllocError> {
        match self {
            Expr::Path(path) => Ok(Expr::Path(path.copied()?)),
            Expr::Literal(literal) => Ok(Expr::Literal(*literal)),
        }
    }
}

impl Copies for Value {
    fn copied(&self) -> Result<Value, AllocError> {
        match self {
            Value::Name(name) => Ok(Value::Name(name.copied()?)),
            Value::Literal(literal) => Ok(Value::Literal(*literal)),
        }
    }
}

impl Copies for BaseType {
    fn copied(&self) -> Result<BaseType, AllocError> {
        match self {
            BaseType::Int => Ok(BaseType::Int),
            BaseType::Float => Ok(BaseType::Float),
            BaseType::Bool => Ok(BaseType::Bool),
            BaseType::Str => Ok(BaseType::Str),
            BaseType::Named(name) => Ok(BaseType::Named(name.copied()?)),
        }
    }
}

impl Copies for Bounds {
    fn copied(&self) -> Result<Bounds, AllocError> {
        match self {
            Bounds::All => Ok(Bounds::All),
            Bounds::Range {
                at,
                least,
                greatest,
            } => {
                let (least, greatest) = both(least.copied(), greatest.copied())?;
                Ok(Bounds::Range {
                    at: *at,
                    least,
                    greatest,
                })
            }
            Bounds::Set { at, values } => Ok(Bounds::Set {
                at: *at,
                values: copy_all(values)?,
            }),
        }
    }
}

impl Copies for Type {
    fn copied(&self) -> Result<Type, AllocError> {
        let (base, bounds) = both(self.base.copied(), self.bounds.copied())?;
        Ok(Type {
            at: self.at,
            base,
            bounds,
        })
    }
}

impl Copies for Creation {
    fn copied(&self) -> Result<Creation, AllocError> {
        let (class, arguments) = both(self.class.copied(), copy_all(&self.arguments))?;
        Ok(Creation {
            at: self.at,
            class,
            arguments,
        })
    }
}

impl Copies for Init {
    fn copied(&self) -> Result<Init, AllocError> {
        match self {
            Init::Expr(expr) => Ok(Init::Expr(expr.copied()?)),
            Init::New(creation) => Ok(Init::New(creation.copied()?)),
        }
    }
}
