//! What expressions are checked and rewritten under.
ghost use Rattle.px_expr.specs.Kernel.{all_kernels};
ghost use Rattle.px_expr.specs.Plan.{Catalog, catalog_of};

use crate::context::Context;
use crate::kernel::KernelList;
use px_types::Schema;

/// The schema and the kernels that expressions may speak of, and what they are asked for.
#[derive(Clone, Copy)]
pub struct PlanContext<'a> {
    pub schema: &'a Schema,
    pub kernels: &'a KernelList,
    pub context: Context,
}

/// A plan as definitions know it.
pub trait Plan {
    /// Its schema and its kernels.
    ghost catalog: { Self → Catalog };
}

impl Plan for PlanContext<'_> {
    ghost catalog = { λ plan. catalog_of plan.schema.now (all_kernels (λ b. (ColumnsUdf-box b).declared b.value) (λ b. (ColumnsUdf-box b).answer b.value) plan.kernels.now.entries.items) };
}
