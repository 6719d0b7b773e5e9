/// Whether a row or a scene was told, and as it should be.
pub(crate) fn holds<E: Drop>(told: Result<bool, E>) -> bool {
    match told {
        Ok(told) => told,
        Err(_) => false,
    }
}
