//! Declarations as other modules see them.
use crate::fixity::Fixity;
use crate::scheme::Scheme;
use mk_base::kind::Kind;
use mk_base::list::List;
use mk_base::memory::NoMemory;
use mk_base::name::Name;
use mk_base::plain::Plain;
use mk_base::text::Text;
use mk_base::ty::Ty;
use std::alloc::Global;

/// A field of a constructor (Haskell 2010 Report, section 4.2.1).
#[derive(Debug, Drop)]
pub struct Field {
    /// The label; a field without one has the empty text.
    pub label: Text,
    /// The fixity of the label, where one is declared.
    pub fixity: Option<Fixity>,
    /// Whether the field is strict, written with `!`.
    pub strict: bool,
    /// The type of the field; its variables are places among the parameters of the declared type.
    pub ty: Ty,
}

/// A constructor of an algebraic data type; it belongs to the declaration of that type.
#[derive(Debug, Drop)]
pub struct Constr {
    /// The constructor's name, without its module.
    pub occ: Text,
    /// Its fixity, where one is declared.
    pub fixity: Option<Fixity>,
    /// Its fields, in order.
    pub fields: List<Field>,
}

/// A method; it belongs to the declaration of its class (Haskell 2010 Report, section 4.3.1).
#[derive(Debug, Drop)]
pub struct Method {
    /// The method's name, without its module.
    pub occ: Text,
    /// Its fixity, where one is declared.
    pub fixity: Option<Fixity>,
    /// Its type; the variable 0 is that of the class.
    pub scheme: Scheme,
}

/// What a name is declared as. Type variables are the numbers below `vars` of a scheme, or below the length of `kinds`.
#[derive(Debug, Drop)]
pub enum Body {
    /// A value with its type.
    Value(Scheme),
    /// An algebraic data type, with the kinds of its parameters and its constructors; `renamed` is true for a `newtype`.
    Alg {
        renamed: bool,
        kinds: List<Kind>,
        constrs: List<Constr>,
    },
    /// A type synonym, with the kinds of its parameters, and the kind and text of what it stands for.
    Synonym {
        kinds: List<Kind>,
        result: Kind,
        body: Ty,
    },
    /// A class, with the kind of its variable, its superclasses and its methods.
    Class {
        kind: Kind,
        supers: List<Name>,
        methods: List<Method>,
    },
    /// A type that a boot source declares without its constructors, with the kinds of its parameters.
    Abstract {
        kinds: List<Kind>,
    },
}

/// A declaration. It refers to everything by name, and synonyms are expanded in its types.
#[derive(Debug, Drop)]
pub struct Decl {
    /// The declared name.
    pub name: Name,
    /// Its fixity, where one is declared.
    pub fixity: Option<Fixity>,
    /// What it is declared as.
    pub body: Body,
}

impl Plain for Field {
    fn same(&self, other: &Field) -> bool {
        self.label.same(&other.label)
            && self.fixity.same(&other.fixity)
            && self.strict == other.strict
            && self.ty.same(&other.ty)
    }

    fn copy(&self, alloc: Global) -> Result<Field, NoMemory> {
        let label = self.label.copy(alloc)?;
        let ty = self.ty.copy(alloc)?;
        Ok(Field {
            label,
            fixity: self.fixity,
            strict: self.strict,
            ty,
        })
    }
}

impl Plain for Constr {
    fn same(&self, other: &Constr) -> bool {
        self.occ.same(&other.occ)
            && self.fixity.same(&other.fixity)
            && self.fields.same(&other.fields)
    }

    fn copy(&self, alloc: Global) -> Result<Constr, NoMemory> {
        let occ = self.occ.copy(alloc)?;
        let fields = self.fields.copy(alloc)?;
        Ok(Constr {
            occ,
            fixity: self.fixity,
            fields,
        })
    }
}

impl Plain for Method {
    fn same(&self, other: &Method) -> bool {
        self.occ.same(&other.occ)
            && self.fixity.same(&other.fixity)
            && self.scheme.same(&other.scheme)
    }

    fn copy(&self, alloc: Global) -> Result<Method, NoMemory> {
        let occ = self.occ.copy(alloc)?;
        let scheme = self.scheme.copy(alloc)?;
        Ok(Method {
            occ,
            fixity: self.fixity,
            scheme,
        })
    }
}

impl Plain for Body {
    fn same(&self, other: &Body) -> bool {
        match (self, other) {
            (Body::Value(a), Body::Value(b)) => a.same(b),
            (
                Body::Alg {
                    renamed: r,
                    kinds: k,
                    constrs: c,
                },
                Body::Alg {
                    renamed,
                    kinds,
                    constrs,
                },
            ) => *r == *renamed && k.same(kinds) && c.same(constrs),
            (
                Body::Synonym {
                    kinds: k,
                    result: r,
                    body: b,
                },
                Body::Synonym {
                    kinds,
                    result: to,
                    body,
                },
            ) => k.same(kinds) && r.same(to) && b.same(body),
            (
                Body::Class {
                    kind: k,
                    supers: s,
                    methods: m,
                },
                Body::Class {
                    kind,
                    supers,
                    methods,
                },
            ) => k.same(kind) && s.same(supers) && m.same(methods),
            (Body::Abstract { kinds: k }, Body::Abstract { kinds }) => k.same(kinds),
            _ => false,
        }
    }

    fn copy(&self, alloc: Global) -> Result<Body, NoMemory> {
        match self {
            Body::Value(scheme) => Ok(Body::Value(scheme.copy(alloc)?)),
            Body::Alg {
                renamed,
                kinds,
                constrs,
            } => Ok(Body::Alg {
                renamed: *renamed,
                kinds: kinds.copy(alloc)?,
                constrs: constrs.copy(alloc)?,
            }),
            Body::Synonym {
                kinds,
                result: to,
                body,
            } => Ok(Body::Synonym {
                kinds: kinds.copy(alloc)?,
                result: to.copy(alloc)?,
                body: body.copy(alloc)?,
            }),
            Body::Class {
                kind,
                supers,
                methods,
            } => Ok(Body::Class {
                kind: kind.copy(alloc)?,
                supers: supers.copy(alloc)?,
                methods: methods.copy(alloc)?,
            }),
            Body::Abstract { kinds } => Ok(Body::Abstract {
                kinds: kinds.copy(alloc)?,
            }),
        }
    }
}

impl Plain for Decl {
    fn same(&self, other: &Decl) -> bool {
        self.name.same(&other.name)
            && self.fixity.same(&other.fixity)
            && self.body.same(&other.body)
    }

    fn copy(&self, alloc: Global) -> Result<Decl, NoMemory> {
        let name = self.name.copy(alloc)?;
        let body = self.body.copy(alloc)?;
        Ok(Decl {
            name,
            fixity: self.fixity,
            body,
        })
    }
}
